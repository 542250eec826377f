ghost use Rattle.std.specs.Prelude.{◌≡◌, ◌≤◌, ◌/◌, is_ok, filter};
ghost use Rattle.std.specs.Result.{result_err};
ghost use Rattle.action_table.specs.Table.{all_actions};
ghost use Rattle.craft_settings.specs.Ranges.{SettingsFields};
ghost use Rattle.step_rules.specs.Macro.{counted};
ghost use Rattle.step_rules.specs.Measure.{measure};
ghost use Rattle.step_rules.specs.Legality.{start_of, is_complete, is_over, is_legal, effect_reason, late_reason, reason_of, found_reason, IsWithin};

use action_table::{Action, row};
use combo_effects::cp_cost;
use craft_settings::{Settings, allowed};
use craft_state::{Combo, Effects, Perfection, State};
use smallvec::SmallVec;
use std::alloc::Global;

/// Why an action isn't legal. The order of the variants is the order in which the reasons are tried.
#[derive(Clone, Copy, PartialEq, Eq, Debug)]
pub enum Illegal {
    /// The crafter's level is too low.
    NotLearned,
    /// The settings forbid it.
    Forbidden,
    /// It opens a craft, and a step was already made.
    NotFirst,
    /// It needs a stack of Inner Quiet.
    NoStacks,
    /// It needs ten stacks of Inner Quiet.
    NotTen,
    /// It can't be used while Waste Not lasts.
    UnderWaste,
    /// Trained Perfection isn't ready.
    PerfectionSpent,
    /// The CP left is less than the price.
    NotEnoughCp { has: u32, needs: u32 },
    /// The craft is over.
    Finished,
    /// The settings want no touch after the first progress.
    Backloaded,
}

/// No legal macro has more steps.
pub const MOST_STEPS: u32 = 272;

/// The state in which a craft starts. From it a quarter of the measure bounds the number of steps, and is at most
/// `MOST_STEPS`.
pub fn start(g: &Settings) -> State
    ensures value { result ≡ start_of g.now }
    ensures within { IsWithin g.now result }
    ensures longest { measure result / 4 ≤ MOST_STEPS }
{
    State {
        cp: g.cp,
        durability: g.durability,
        progress: 0,
        quality: g.initial.min(g.quality),
        effects: Effects {
            iq: 0,
            waste: 0,
            innovation: 0,
            veneration: 0,
            strides: 0,
            muscle: 0,
            manipulation: 0,
            combo: Combo::NoCombo,
            perfection: if allowed(g, Action::TrainedPerfection) {
                Perfection::Ready
            } else {
                Perfection::Spent
            },
            first: true,
        },
    }
}

/// Whether the craft is complete: the progress is the recipe's.
pub fn is_complete(g: &Settings, s: &State) -> bool
    ensures { result ≡ is_complete g.now s.now }
{
    s.progress == g.progress
}

/// The quality of a state that counts: at most the recipe's, and at most what the settings ask for.
pub fn counted(g: &Settings, s: &State) -> u32
    ensures { result ≡ counted g.now s.now }
{
    g.cap().min(s.quality)
}

/// Whether the craft is over: the progress is the recipe's, or no durability is left.
pub fn is_final(g: &Settings, s: &State) -> bool
    ensures { result ≡ is_over g.now s.now }
{
    is_complete(g, s) || s.durability == 0
}

/// Whether an action is legal, and else the first reason why it isn't.
pub fn check(g: &Settings, s: &State, action: Action) -> Result<(), Illegal>
    ensures legal { is_ok result ≡ is_legal g.now s.now action }
    ensures reason { result_err result ≡ reason_of g.now s.now action }
{
    match reason(g, s, action) {
        Some(why) => Err(why),
        None => Ok(()),
    }
}

// The first reason why an action isn't legal.
#[tactic(auto, unfolding(crate::specs::Legality::found_reason))]
fn reason(g: &Settings, s: &State, action: Action) -> Option<Illegal>
    ensures { result ≡ found_reason g.now s.now action }
{
    if !g.is_learned(action) {
        return Some(Illegal::NotLearned);
    }
    if g.is_forbidden(action) {
        return Some(Illegal::Forbidden);
    }
    if let Some(why) = reason_of_effects(&s.effects, action) {
        return Some(why);
    }
    last_reason(g, s, action)
}

// Why the effects don't allow an action.
fn reason_of_effects(effects: &Effects, action: Action) -> Option<Illegal>
    ensures { result ≡ effect_reason effects.now action }
{
    let (allowed, why) = match action {
        Action::MuscleMemory | Action::Reflect | Action::TrainedEye => {
            (effects.first, Illegal::NotFirst)
        }
        Action::ByregotsBlessing => (effects.iq > 0, Illegal::NoStacks),
        Action::TrainedFinesse => (effects.iq == 10, Illegal::NotTen),
        Action::PrudentTouch | Action::PrudentSynthesis => (
            effects.waste == 0,
            Illegal::UnderWaste,
        ),
        Action::TrainedPerfection => {
            (
                effects.perfection == Perfection::Ready,
                Illegal::PerfectionSpent,
            )
        }
        _ => return None,
    };
    if allowed { None } else { Some(why) }
}

// The first reason, if it is one of the last three.
fn last_reason(g: &Settings, s: &State, action: Action) -> Option<Illegal>
    ensures { result ≡ late_reason g.now s.now action }
{
    let needs = cp_cost(action, g.level, s.effects.combo);
    if s.cp < needs {
        Some(Illegal::NotEnoughCp { has: s.cp, needs })
    } else if is_final(g, s) {
        Some(Illegal::Finished)
    } else if g.backload && row(action, g.level).quality > 0 && s.progress > 0 {
        Some(Illegal::Backloaded)
    } else {
        None
    }
}

/// The legal actions, in action order. They stand inline, so no memory is taken.
pub fn legal(alloc: Global, g: &Settings, s: &State) -> SmallVec<Action, 32>
    ensures items { result.items ≡ filter (is_legal g.now s.now) all_actions }
    ensures inline { result.capacity ≡ 32 }
{
    let mut found = SmallVec::new(alloc);
    for &action in Action::ALL.iter() {
        if check(g, s, action).is_ok() {
            found.push_reserved(action);
        }
    }
    found
}
