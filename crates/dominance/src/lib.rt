//! What a state that is not less than another can do.
#![tactic(auto)]

ghost use Rattle.std.specs.Prelude.{◌≡◌, ◌≤◌, true, false};
ghost use Rattle.craft_state.specs.NotLess.{IsNotLess};
ghost use Rattle.step_rules.specs.Legality.{is_legal, is_over, is_complete, IsWithin};
ghost use Rattle.step_rules.specs.Step.{step_of};

use action_table::Action;
use craft_settings::Settings;
use craft_state::State;
use step_rules::step;

#[cfg(test)]
mod tests;

/// The states after an action from two states of equal progress and effects, where CP, durability
/// and quality of the first are not less and the action is legal in the second. It is legal in the
/// first too. Where the second goes on, so does the first, and is again not less; where the second
/// completes the craft, so does the first, with no less quality.
pub fn child_law(g: &Settings, a: &State, b: &State, action: Action) -> (State, State)
    requires within_a { IsWithin g.now a.now }
    requires within_b { IsWithin g.now b.now }
    requires not_less { IsNotLess a.now b.now }
    requires legal { is_legal g.now b.now action ≡ true }
    ensures legal { is_legal g.now a.now action ≡ true }
    ensures first { result.0 ≡ step_of g.now a.now action }
    ensures second { result.1 ≡ step_of g.now b.now action }
    ensures within { IsWithin g.now result.0 × IsWithin g.now result.1 }
    ensures live { is_over g.now result.1 ≡ false → (is_over g.now result.0 ≡ false) × IsNotLess result.0 result.1 }
    ensures complete { is_complete g.now result.1 ≡ true → (is_complete g.now result.0 ≡ true) × (result.1.quality ≤ result.0.quality) }
{
    (step(g, a, action), step(g, b, action))
}
