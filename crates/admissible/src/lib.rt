//! The laws that make the bounds admissible: no step raises what a craft can still reach.
#![tactic(auto)]

ghost use Rattle.std.specs.Prelude.{ℕ, ◌≡◌, ◌≤◌, ◌+◌, ◌-◌, true, false, Some, IsTrue, MatchOption};
ghost use Rattle.step_rules.specs.Legality.{is_legal, is_over, is_complete, IsWithin};
ghost use Rattle.step_rules.specs.Macro.{counted};
ghost use Rattle.step_rules.specs.Step.{step_of};
ghost use Rattle.relaxed_moves.specs.Budget.{potential_of, cost_of};
ghost use Rattle.relaxed_moves.specs.Moves.{relax_of, move_on_of, is_listed, IsNoBetter};
ghost use Rattle.relaxed_moves.specs.Optimum.{option_le, limit_of, within_of};

use action_table::Action;
use craft_settings::Settings;
use craft_state::State;
use relaxed_moves::{Relaxed, is_listed, move_cost, potential, relax};
use step_rules::step;

pub mod laws;
#[cfg(test)]
mod tests;

/// The cost in CP of an action that is in the list of relaxed moves, and None for a rest.
pub fn move_of(g: &Settings, action: Action) -> Option<u32>
    ensures { MatchOption result (is_listed g.now action ≡ false) (λ cost. (is_listed g.now action ≡ true) ×
        (cost ≡ cost_of g.now action)) }
{
    if is_listed(g, action) {
        Some(move_cost(g, action))
    } else {
        None
    }
}

/// The potential of the next state, which isn't above that of `s`.
pub fn potential_law(g: &Settings, s: &State, action: Action) -> u32
    requires within { IsWithin g.now s.now }
    requires legal { IsTrue (is_legal g.now s.now action) }
    requires live { is_over g.now (step_of g.now s.now action) ≡ false }
    ensures value { result ≡ potential_of g.now (step_of g.now s.now action) }
    ensures law { result ≤ potential_of g.now s.now }
{
    potential(g, &step(g, s, action))
}

/// The relaxed next state of a step that leaves the craft going.
///
/// It is no better than the move makes that of `s`, or than that of `s` itself after a rest. The
/// potential falls by at least the move's cost, or doesn't rise. Neither limit of `s` rises.
pub fn step_law(g: &Settings, grain: u32, s: &State, action: Action) -> Relaxed
    requires low { 1 ≤ grain }
    requires high { grain ≤ 64 }
    requires within { IsWithin g.now s.now }
    requires legal { IsTrue (is_legal g.now s.now action) }
    requires live { is_over g.now (step_of g.now s.now action) ≡ false }
    requires later { s.now.effects.first ≡ false }
    ensures value { result ≡ relax_of g.now grain (step_of g.now s.now action) }
    ensures bucket { result.bucket ≤ grain }
    ensures move_state { is_listed g.now action ≡ true → IsNoBetter result (move_on_of g.now grain (relax_of g.now grain s.now) action) }
    ensures move_potential { is_listed g.now action ≡ true → potential_of g.now (step_of g.now s.now action) + cost_of g.now action ≤
        potential_of g.now s.now }
    ensures rest_state { is_listed g.now action ≡ false → IsNoBetter result (relax_of g.now grain s.now) }
    ensures rest_potential { is_listed g.now action ≡ false → potential_of g.now (step_of g.now s.now action) ≤ potential_of g.now s.now }
    ensures limit { option_le (limit_of g.now grain (step_of g.now s.now action)) (limit_of g.now grain s.now) }
    ensures within { (j : ℕ) → 1 ≤ j → option_le (within_of g.now grain (step_of g.now s.now action) (j - 1))
        (within_of g.now grain s.now j) }
{
    relax(g, grain, &step(g, s, action))
}

/// The next state of a step that completes the craft.
///
/// The limit of `s`, and its limit within any number of steps from 1 on, are at least the quality
/// that counts in the next state.
pub fn last_law(g: &Settings, grain: u32, s: &State, action: Action) -> State
    requires low { 1 ≤ grain }
    requires high { grain ≤ 64 }
    requires within { IsWithin g.now s.now }
    requires legal { IsTrue (is_legal g.now s.now action) }
    requires complete { is_complete g.now (step_of g.now s.now action) ≡ true }
    requires later { s.now.effects.first ≡ false }
    ensures value { result ≡ step_of g.now s.now action }
    ensures limit { option_le (Some (counted g.now result)) (limit_of g.now grain s.now) }
    ensures within { (j : ℕ) → 1 ≤ j → option_le (Some (counted g.now result)) (within_of g.now grain s.now j) }
{
    step(g, s, action)
}
