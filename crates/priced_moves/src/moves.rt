ghost use Rattle.std.specs.Prelude.{◌≡◌, ◌≤◌, ◌*◌, true};
ghost use Rattle.relaxed_moves.specs.Moves.{move_gain_of};
ghost use Rattle.priced_moves.specs.Moves.{AreSmallUnits, plain, progress_units, quality_units, is_listed, is_move_of, seen_of, gain_of, efficiency_of, shift_of, move_on_of};

use crate::kinds::{Seen, Units};
use crate::prices::is_halved;
use action_table::{Action, row};
use combo_effects::{combo_after, duration, quality_efficiency, stacks_after};
use craft_numbers::{progress_gain, quality_gain};
use craft_settings::{Settings, allowed};
use craft_state::State;

// So many points of progress in units, rounded up.
#[tactic(auto, using(crate::proofs::Rounding::ceilings))]
fn progress_units(units: &Units, points: u32) -> u32
    requires units { AreSmallUnits units.now }
    requires points { points ≤ 100000 }
    ensures value { result ≡ progress_units units.now points }
    ensures high { result ≤ points * units.now.share }
{
    let product = points as u64 * units.share as u64;
    product.div_ceil(units.progress as u64) as u32
}

// So many points of quality in units, rounded up.
#[tactic(auto, using(crate::proofs::Rounding::ceilings))]
fn quality_units(units: &Units, points: u32) -> u32
    requires units { AreSmallUnits units.now }
    requires points { points ≤ 100000 }
    ensures value { result ≡ quality_units units.now points }
    ensures high { result ≤ 100000 }
{
    points.div_ceil(units.quality)
}

/// What the bounds see of a state of the craft: the progress that is left, in units and rounded up, and the effects that
/// change gains and prices.
#[tactic(auto, unfolding(crate::specs::Moves::seen_of))]
pub fn seen(g: &Settings, units: &Units, s: &State) -> Seen
    requires units { AreSmallUnits units.now }
    requires progress { s.now.progress ≤ g.now.progress }
    ensures { result ≡ seen_of g.now units.now s.now }
{
    Seen {
        need: progress_units(units, g.progress - s.progress),
        iq: s.effects.iq,
        innovation: s.effects.innovation,
        veneration: s.effects.veneration,
        strides: s.effects.strides > 0,
        muscle: s.effects.muscle > 0,
        combo: s.effects.combo,
        begun: g.backload && s.progress > 0,
    }
}

/// Whether an action is in the list of priced moves, whatever is seen. Where Careful Synthesis isn't allowed, its place
/// is that of a Groundwork whose durability doesn't last.
pub fn is_listed(g: &Settings, action: Action) -> bool
    ensures { result ≡ is_listed g.now action }
{
    match action {
        Action::Observe => allowed(g, action),
        Action::CarefulSynthesis => allowed(g, action) || allowed(g, Action::Groundwork),
        _ => relaxed_moves::is_listed(g, action),
    }
}

/// Whether an action is a move from `x`.
#[tactic(auto, unfolding(crate::specs::Moves::is_move_of))]
pub fn is_move(g: &Settings, x: &Seen, action: Action) -> bool
    ensures value { result ≡ is_move_of g.now x.now action }
    ensures listed { result ≡ true → is_listed g.now action ≡ true }
{
    let ready = match action {
        Action::ByregotsBlessing => x.iq > 0,
        Action::TrainedFinesse => x.iq == 10,
        _ => true,
    };
    let late = x.begun && row(action, g.level).quality > 0;
    is_listed(g, action) && ready && !late
}

/// The units of quality that a move gains, 0 for one that isn't a touch.
#[tactic(auto, unfolding(crate::specs::Moves::gain_of))]
pub fn gain(g: &Settings, units: &Units, x: &Seen, action: Action) -> u32
    requires { AreSmallUnits units.now }
    ensures value { result ≡ gain_of g.now units.now x.now action }
    ensures high { result ≤ 100000 }
{
    quality_units(units, points(g, x, action))
}

// The same in points.
#[tactic(auto, unfolding(relaxed_moves::specs::Moves::move_gain_of))]
fn points(g: &Settings, x: &Seen, action: Action) -> u32
    ensures value { result ≡ move_gain_of g.now (plain x.now) action }
    ensures high { result ≤ 100000 }
{
    if row(action, g.level).quality == 0 {
        return 0;
    }
    quality_gain(
        g.base_quality,
        quality_efficiency(action, g.level, x.iq),
        x.iq,
        x.innovation > 0,
        x.strides,
    )
}

/// The units of progress that a move takes off.
#[tactic(auto, using(crate::proofs::Rounding::products))]
pub fn shift(g: &Settings, units: &Units, x: &Seen, action: Action) -> u32
    requires { AreSmallUnits units.now }
    ensures value { result ≡ shift_of g.now units.now x.now action }
    ensures high { result ≤ 500000000 }
{
    let points = progress_gain(
        g.base_progress,
        efficiency(g, action),
        x.veneration > 0,
        x.muscle,
    );
    progress_units(units, points)
}

// The progress efficiency of a move.
fn efficiency(g: &Settings, action: Action) -> u32
    ensures value { result ≡ efficiency_of g.now action }
    ensures high { result ≤ 360 }
{
    if is_halved(g, action) {
        row(Action::Groundwork, g.level).progress / 2
    } else {
        row(action, g.level).progress
    }
}

/// What is seen after a move.
#[tactic(auto, unfolding(crate::specs::Moves::move_on_of))]
pub fn move_on(g: &Settings, units: &Units, x: &Seen, action: Action) -> Seen
    requires { AreSmallUnits units.now }
    ensures { result ≡ move_on_of g.now units.now x.now action }
{
    let row = row(action, g.level);
    Seen {
        need: x.need.saturating_sub(shift(g, units, x, action)),
        iq: if row.quality > 0 {
            stacks_after(action, g.level, x.iq, x.combo)
        } else {
            x.iq
        },
        innovation: match action {
            Action::Innovation => duration(action),
            _ => x.innovation.saturating_sub(1),
        },
        veneration: match action {
            Action::Veneration => duration(action),
            _ => x.veneration.saturating_sub(1),
        },
        strides: match action {
            Action::GreatStrides => true,
            _ if row.quality > 0 => false,
            _ => x.strides,
        },
        muscle: if row.progress > 0 { false } else { x.muscle },
        combo: combo_after(x.combo, action),
        begun: x.begun || g.backload && row.progress > 0,
    }
}
