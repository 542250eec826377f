ghost use Rattle.std.specs.Prelude.{◌≡◌, ◌≤◌, ◌-◌, ◌*◌, ◌/◌, IsTrue, true, nat_lt};
ghost use Rattle.craft_numbers.specs.Gains.{progress_gain_of};
ghost use Rattle.relaxed_moves.specs.Moves.{is_listed, is_move_of, unit_of, relax_of, move_gain_of, move_innovation, move_veneration, move_strides, move_on_of};

use crate::kinds::Relaxed;
use action_table::{Action, row};
use combo_effects::{duration, quality_efficiency, stacks_after};
use craft_numbers::{progress_gain, quality_gain};
use craft_settings::{Settings, allowed};
use craft_state::{Combo, State};

/// Whether an action is in the list of relaxed moves, whatever the state.
pub fn is_listed(g: &Settings, action: Action) -> bool
    ensures { result ≡ is_listed g.now action }
{
    match action {
        Action::MuscleMemory | Action::Reflect => false,
        Action::Veneration | Action::Innovation | Action::GreatStrides => allowed(g, action),
        _ => {
            let row = row(action, g.level);
            allowed(g, action) && (row.progress > 0 || row.quality > 0)
        }
    }
}

/// Whether an action is a relaxed move from `x`.
#[tactic(auto, unfolding(crate::specs::Moves::is_move_of))]
pub fn is_move(g: &Settings, x: &Relaxed, action: Action) -> bool
    ensures value { result ≡ is_move_of g.now x.now action }
    ensures listed { result ≡ true → is_listed g.now action ≡ true }
{
    let ready = match action {
        Action::ByregotsBlessing => x.iq > 0,
        Action::TrainedFinesse => x.iq == 10,
        _ => true,
    };
    is_listed(g, action) && ready
}

/// The progress of a bucket, in points: the recipe's, shared out over `grain` buckets, 1 to 64, and rounded up.
#[tactic(auto, using(crate::proofs::Products::unit_covers), unfolding(crate::specs::Moves::unit_of))]
pub fn unit(g: &Settings, grain: u32) -> u32
    requires low { 1 ≤ grain }
    requires high { grain ≤ 64 }
    ensures value { result ≡ unit_of g.now grain }
    ensures low { 1 ≤ result }
    ensures high { result ≤ g.now.progress }
    ensures covers { g.now.progress ≤ result * grain }
{
    g.progress.div_ceil(grain)
}

/// What the bounds see of a state of the craft, at a grain of 1 to 64: the bucket of the progress that is left, and the
/// effects that raise gains.
pub fn relax(g: &Settings, grain: u32, s: &State) -> Relaxed
    requires low { 1 ≤ grain }
    requires high { grain ≤ 64 }
    requires progress { s.now.progress ≤ g.now.progress }
    ensures value { result ≡ relax_of g.now grain s.now }
    ensures bucket { result.bucket ≤ grain }
{
    relax_by(g, grain, unit(g, grain), s)
}

/// The same as `relax`, where `unit` is the progress of a bucket in points, as `unit` gives it, which a search makes once.
#[tactic(auto, using(crate::proofs::Products::buckets), unfolding(crate::specs::Moves::relax_of, crate::specs::Moves::unit_of))]
pub fn relax_by(g: &Settings, grain: u32, unit: u32, s: &State) -> Relaxed
    requires low { 1 ≤ grain }
    requires high { grain ≤ 64 }
    requires unit { unit ≡ unit_of g.now grain }
    requires progress { s.now.progress ≤ g.now.progress }
    ensures value { result ≡ relax_of g.now grain s.now }
    ensures bucket { result.bucket ≤ grain }
{
    Relaxed {
        bucket: (g.progress - s.progress) / unit,
        iq: s.effects.iq,
        innovation: s.effects.innovation,
        veneration: s.effects.veneration,
        strides: s.effects.strides > 0,
        muscle: s.effects.muscle > 0,
    }
}

/// The quality that a relaxed move gains, 0 for one that isn't a touch.
#[tactic(auto, unfolding(crate::specs::Moves::move_gain_of))]
pub fn move_gain(g: &Settings, x: &Relaxed, action: Action) -> u32
    requires { IsTrue (is_move_of g.now x.now action) }
    ensures value { result ≡ move_gain_of g.now x.now action }
    ensures range { result ≤ 100000 }
{
    if row(action, g.level).quality == 0 {
        return 0;
    }
    quality_gain(
        g.base_quality,
        quality_efficiency(action, g.level, x.iq),
        x.iq,
        x.innovation > 0,
        x.strides,
    )
}

/// The relaxed state after a move.
pub fn move_on(g: &Settings, grain: u32, x: &Relaxed, action: Action) -> Relaxed
    requires low { 1 ≤ grain }
    requires high { grain ≤ 64 }
    requires bucket { x.now.bucket ≤ grain }
    requires is_move { IsTrue (is_move_of g.now x.now action) }
    ensures value { result ≡ move_on_of g.now grain x.now action }
    ensures bucket { result.bucket ≤ x.now.bucket }
{
    move_on_by(g, grain, unit(g, grain), x, action)
}

/// The relaxed state after a move, by the progress of a bucket. A touch always adds as many stacks as after a Basic
/// Touch.
#[tactic(auto, unfolding(crate::specs::Moves::move_on_of))]
pub fn move_on_by(g: &Settings, grain: u32, unit: u32, x: &Relaxed, action: Action) -> Relaxed
    requires low { 1 ≤ grain }
    requires high { grain ≤ 64 }
    requires unit { unit ≡ unit_of g.now grain }
    requires bucket { x.now.bucket ≤ grain }
    requires is_move { IsTrue (is_move_of g.now x.now action) }
    ensures value { result ≡ move_on_of g.now grain x.now action }
    ensures bucket { result.bucket ≤ x.now.bucket }
{
    let row = row(action, g.level);
    Relaxed {
        bucket: next_bucket(g, grain, unit, x, row.progress),
        iq: if row.quality > 0 {
            stacks_after(action, g.level, x.iq, Combo::Basic)
        } else {
            x.iq
        },
        innovation: move_innovation(x.innovation, action),
        veneration: move_veneration(x.veneration, action),
        strides: move_strides(g, x.strides, action),
        muscle: if row.progress > 0 { false } else { x.muscle },
    }
}

// The steps of Innovation after a move, of the 4 at most that were left before it.
fn move_innovation(left: u32, action: Action) -> u32
    requires { left ≤ 4 }
    ensures value { result ≡ move_innovation left action }
    ensures high { result ≤ 4 }
{
    match action {
        Action::Innovation => duration(action),
        _ => left.saturating_sub(1),
    }
}

// The steps of Veneration after a move, of the 4 at most that were left before it.
fn move_veneration(left: u32, action: Action) -> u32
    requires { left ≤ 4 }
    ensures value { result ≡ move_veneration left action }
    ensures high { result ≤ 4 }
{
    match action {
        Action::Veneration => duration(action),
        _ => left.saturating_sub(1),
    }
}

// Whether Great Strides waits for a touch after a move, where it did before it or not.
fn move_strides(g: &Settings, waits: bool, action: Action) -> bool
    ensures { result ≡ move_strides g.now waits action }
{
    match action {
        Action::GreatStrides => true,
        _ => waits && row(action, g.level).quality == 0,
    }
}

// The bucket after the progress of a move, rounded down.
#[tactic(auto, using(crate::proofs::Products::products))]
fn next_bucket(g: &Settings, grain: u32, unit: u32, x: &Relaxed, progress: u32) -> u32
    requires low { 1 ≤ grain }
    requires high { grain ≤ 64 }
    requires unit { unit ≡ unit_of g.now grain }
    requires bucket { x.now.bucket ≤ grain }
    requires progress { progress ≤ 400 }
    ensures value { result ≡ (x.now.bucket * unit_of g.now grain - progress_gain_of g.now.base_progress progress
        (nat_lt 0 x.now.veneration) x.now.muscle) / unit_of g.now grain }
    ensures falls { result ≤ x.now.bucket }
{
    let base = g.base_progress;
    if progress == 0 {
        return x.bucket;
    }
    let gain = progress_gain(base, progress, x.veneration > 0, x.muscle);
    (x.bucket * unit).saturating_sub(gain) / unit
}
