//! What an action costs, wears and leaves behind.
#![tactic(auto)]

ghost use Rattle.std.specs.Prelude.{◌≡◌, ◌≤◌, ◌%◌};
ghost use Rattle.combo_effects.specs.Combos.{cp_cost_of, wear_of, tick_of, duration_of, after_of, next_combo};
ghost use Rattle.combo_effects.specs.Touches.{quality_efficiency, iq_after};

use action_table::{Action, row};
use craft_state::{Combo, Effects, Perfection};

/// The CP that an action costs after a combo, at a crafter's level of 1 to 100.
pub fn cp_cost(action: Action, level: u32, combo: Combo) -> u32
    requires low { 1 ≤ level }
    requires high { level ≤ 100 }
    ensures value { result ≡ cp_cost_of action level combo }
    ensures range { result ≤ 250 }
{
    let row = row(action, level);
    match (action, combo) {
        (Action::StandardTouch, Combo::Basic) | (Action::AdvancedTouch, Combo::Standard) => {
            row.combo_cp
        }
        _ => row.cp,
    }
}

/// The durability that an action wears under the effects, in points. `durability` is that of its row, a multiple of 5
/// of at most 20. Under Waste Not it is half of that, rounded up to a multiple of 5, and 0 where Trained Perfection is
/// on.
pub fn wear(durability: u32, effects: &Effects) -> u32
    requires range { durability ≤ 20 }
    requires fives { durability % 5 ≡ 0 }
    ensures value { result ≡ wear_of durability effects.now }
    ensures range { result ≤ 20 }
    ensures in_fives { result % 5 ≡ 0 }
{
    if effects.perfection == Perfection::On {
        0
    } else if effects.waste > 0 {
        5 * durability.div_ceil(10)
    } else {
        durability
    }
}

/// The effects with all timed ones one lower, down to 0.
#[tactic(auto, unfolding(crate::specs::Combos::tick_of))]
pub fn tick(effects: &Effects) -> Effects
    ensures { result ≡ tick_of effects.now }
{
    let mut next = *effects;
    next.waste = next.waste.saturating_sub(1);
    next.innovation = next.innovation.saturating_sub(1);
    next.veneration = next.veneration.saturating_sub(1);
    next.strides = next.strides.saturating_sub(1);
    next.muscle = next.muscle.saturating_sub(1);
    next.manipulation = next.manipulation.saturating_sub(1);
    next
}

/// How many steps the action's own effect lasts, 0 for an action without a timed one.
pub fn duration(action: Action) -> u32
    ensures value { result ≡ duration_of action }
    ensures range { result ≤ 8 }
{
    match action {
        Action::WasteNot | Action::Veneration | Action::Innovation => 4,
        Action::WasteNotII | Action::Manipulation => 8,
        Action::GreatStrides => 3,
        Action::MuscleMemory => 5,
        _ => 0,
    }
}

/// The effects with what the action sets, and the combo that it leaves.
#[tactic(auto, unfolding(crate::specs::Combos::after_of))]
pub fn after(effects: &Effects, action: Action) -> Effects
    ensures { result ≡ after_of effects.now action }
{
    let mut next = *effects;
    match action {
        Action::WasteNot | Action::WasteNotII => next.waste = duration(action),
        Action::Veneration => next.veneration = duration(action),
        Action::Innovation => next.innovation = duration(action),
        Action::GreatStrides => next.strides = duration(action),
        Action::MuscleMemory => next.muscle = duration(action),
        Action::Manipulation => next.manipulation = duration(action),
        Action::TrainedPerfection => next.perfection = Perfection::On,
        _ => {}
    }
    next.combo = combo_after(effects.combo, action);
    next
}

/// The quality efficiency of an action, in percent, at a crafter's level of 1 to 100 with `iq` stacks of Inner Quiet, at
/// most 10. It is 0 for an action that isn't a touch.
pub fn quality_efficiency(action: Action, level: u32, iq: u32) -> u32
    requires low { 1 ≤ level }
    requires high { level ≤ 100 }
    requires stacks { iq ≤ 10 }
    ensures value { result ≡ quality_efficiency level iq action }
    ensures range { result ≤ 300 }
{
    match action {
        Action::ByregotsBlessing => 100 + 20 * iq,
        _ => row(action, level).quality,
    }
}

/// The stacks of Inner Quiet after a touch from `iq` stacks, at most 10, at a crafter's level of 1 to 100.
pub fn stacks_after(action: Action, level: u32, iq: u32, combo: Combo) -> u32
    requires low { 1 ≤ level }
    requires high { level ≤ 100 }
    requires stacks { iq ≤ 10 }
    ensures value { result ≡ iq_after level iq combo action }
    ensures range { result ≤ 10 }
{
    let stacks = match (combo, action) {
        (_, Action::ByregotsBlessing) => return 0,
        (Combo::Basic, Action::RefinedTouch) => 2,
        _ => row(action, level).stacks,
    };
    if level >= 11 {
        (iq + stacks).min(10)
    } else {
        iq
    }
}

/// The combo that an action leaves after another.
pub fn combo_after(combo: Combo, action: Action) -> Combo
    ensures { result ≡ next_combo combo action }
{
    match (combo, action) {
        (_, Action::BasicTouch) => Combo::Basic,
        (_, Action::Observe) | (Combo::Basic, Action::StandardTouch) => Combo::Standard,
        _ => Combo::NoCombo,
    }
}
