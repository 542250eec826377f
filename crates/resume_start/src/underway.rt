// A craft that goes on after actions that are done.
ghost use Rattle.std.specs.Prelude.{◌≡◌, IfErr, IfOk};
ghost use Rattle.resume_start.specs.Done.{IsAfter, IsUnfit};

use action_table::Action;
use craft_settings::Settings;
use craft_state::State;
use step_rules::{Illegal, is_final, replay, start};

/// A craft that goes on after the actions that are done: these are legal in turn from the start, and the craft isn't
/// over in the state `from` that they lead to.
#[derive(Clone, Copy)]
pub struct Underway<'a> {
    pub g: &'a Settings,
    pub done: &'a [Action],
    pub from: State,
    pub ghost after: { IsAfter g.now done.now from },
}

/// Why a craft doesn't go on after some actions.
#[derive(Clone, Copy, Debug, PartialEq, Eq)]
pub enum Unfit {
    /// The first action that isn't legal in its turn: its place, counted from 0, and the reason.
    Illegal { place: usize, why: Illegal },
    /// The craft is over after them.
    Over,
}

impl<'a> Underway<'a> {
    /// The craft after these actions. It is unfit exactly where one of them isn't legal in its turn, and the first
    /// such is told, or else where the craft is over after them.
    pub fn after(g: &'a Settings, done: &'a [Action]) -> Result<Underway<'a>, Unfit>
        ensures craft { IfOk result (λ craft. craft.g.now ≡ g.entry.now) }
        ensures done { IfOk result (λ craft. craft.done.now ≡ done.entry.now) }
        ensures unfit { IfErr result (IsUnfit g.entry.now done.entry.now) }
    {
        match replay(g, &start(g), done) {
            Ok(from) if is_final(g, &from) => Err(Unfit::Over),
            Ok(from) => Ok(Underway { g, done, from }),
            Err(stop) => Err(Unfit::Illegal {
                place: stop.place,
                why: stop.why,
            }),
        }
    }
}
