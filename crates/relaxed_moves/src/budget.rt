ghost use Rattle.std.specs.Prelude.{◌≡◌, ◌≤◌, ◌*◌, IsTrue, if◌then◌else◌};
ghost use Rattle.relaxed_moves.specs.Budget.{rho_of, sigma_of, slack_of, AreWeights, is_spent, potential_of, start_potential_of, cost_of};
ghost use Rattle.relaxed_moves.specs.Moves.{is_listed};
ghost use Rattle.relaxed_moves.specs.declared.places.TheConstants.{MOST_BUDGET};

use crate::kinds::Weights;
use action_table::{Action, row};
use craft_settings::{Settings, allowed};
use craft_state::{Perfection, State};

/// The weights of a craft: rho 5 to 14, sigma 12 to 28, slack up to three times rho.
#[tactic(auto, unfolding(crate::specs::Budget::slack_of))]
pub fn weights(g: &Settings) -> Weights
    ensures rho { result.rho ≡ rho_of g.now }
    ensures sigma { result.sigma ≡ sigma_of g.now }
    ensures slack { result.slack ≡ slack_of g.now }
    ensures are { AreWeights g.now result }
    ensures rho_low { 5 ≤ result.rho }
    ensures rho_high { result.rho ≤ 14 }
    ensures sigma_low { 12 ≤ result.sigma }
    ensures sigma_high { result.sigma ≤ 28 }
    ensures slack_high { result.slack ≤ 3 * result.rho }
{
    let rho = rho(g);
    let slack = if allowed(g, Action::Groundwork) {
        3 * rho
    } else {
        rho
    };
    Weights {
        rho,
        sigma: sigma(g),
        slack,
    }
}

// What five points of durability are worth.
#[tactic(auto, unfolding(crate::specs::Budget::rho_of))]
fn rho(g: &Settings) -> u32
    ensures value { result ≡ rho_of g.now }
    ensures low { 5 ≤ result }
    ensures high { result ≤ 14 }
{
    let kept = if allowed(g, Action::Manipulation) {
        12
    } else {
        14
    };
    let mended = if allowed(g, Action::ImmaculateMend) {
        112 / (g.durability / 5 - 1)
    } else {
        14
    };
    kept.min(mended)
}

// What a step of Waste Not is worth.
#[tactic(auto, unfolding(crate::specs::Budget::sigma_of))]
fn sigma(g: &Settings) -> u32
    ensures value { result ≡ sigma_of g.now }
    ensures low { 12 ≤ result }
    ensures high { result ≤ 28 }
{
    if allowed(g, Action::WasteNotII) {
        12
    } else if allowed(g, Action::WasteNot) {
        14
    } else {
        28
    }
}

/// What the means of a state are worth, in CP.
pub fn potential(g: &Settings, s: &State) -> u32
    ensures value { result ≡ potential_of g.now s.now }
    ensures high { result ≤ 1714 }
{
    potential_by(g, &weights(g), s)
}

/// The same as `potential`, by the weights of the craft, which a search makes once.
#[tactic(auto, using(crate::proofs::Costs::weighing), unfolding(crate::specs::Budget::potential_of))]
pub fn potential_by(g: &Settings, weights: &Weights, s: &State) -> u32
    requires { AreWeights g.now weights.now }
    ensures value { result ≡ potential_of g.now s.now }
    ensures high { result ≤ 1714 }
{
    s.cp + weights.rho * (s.durability / 5)
        + weights.rho * s.effects.manipulation
        + weights.sigma * s.effects.waste
        + spare(s.effects.perfection, weights.rho)
        + weights.slack
}

// What Trained Perfection may still spare: the durability of one action.
fn spare(perfection: Perfection, rho: u32) -> u32
    requires { rho ≤ 14 }
    ensures value { result ≡ (if is_spent perfection then 0 else 4 * rho) }
    ensures high { result ≤ 56 }
{
    match perfection {
        Perfection::Spent => 0,
        _ => 4 * rho,
    }
}

/// The potential of the start state, in CP. No state that legal actions reach has a greater one.
#[tactic(auto, using(crate::proofs::Products::products), unfolding(crate::specs::Budget::start_potential_of))]
pub fn start_potential(g: &Settings) -> u32
    ensures value { result ≡ start_potential_of g.now }
    ensures high { result ≤ MOST_BUDGET }
{
    let weights = weights(g);
    let spare = if allowed(g, Action::TrainedPerfection) {
        4 * weights.rho
    } else {
        0
    };
    g.cp + weights.rho * (g.durability / 5) + spare + weights.slack
}

/// What a relaxed move costs, in CP: its own CP and what its durability is worth, 10 at least. The action is in the
/// list of relaxed moves.
pub fn move_cost(g: &Settings, action: Action) -> u32
    requires { IsTrue (is_listed g.now action) }
    ensures value { result ≡ cost_of g.now action }
    ensures low { 10 ≤ result }
{
    move_cost_by(g, &weights(g), action)
}

/// The same as `move_cost`, by the weights of the craft, which a search makes once.
#[tactic(auto, using(crate::proofs::Costs::weighing), unfolding(crate::specs::Budget::cost_of))]
pub fn move_cost_by(g: &Settings, weights: &Weights, action: Action) -> u32
    requires weights { AreWeights g.now weights.now }
    requires listed { IsTrue (is_listed g.now action) }
    ensures value { result ≡ cost_of g.now action }
    ensures low { 10 ≤ result }
{
    let row = row(action, g.level);
    let fives = row.durability / 5;
    let whole = weights.rho * fives;
    let halved = weights.rho * fives.div_ceil(2) + weights.sigma;
    row.combo_cp + whole.min(halved)
}
