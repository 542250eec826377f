ghost use Rattle.std.specs.Prelude.{ℕ, ◌≡◌, ◌≤◌, ◌+◌, ◌*◌, max, min, if◌then◌else◌};
ghost use Rattle.relaxed_moves.specs.Budget.{wear_cost};
ghost use Rattle.priced_moves.specs.Moves.{is_halved, cp_of};
ghost use Rattle.priced_moves.specs.Prices.{AreFair, AreSmall, IsFairFive, IsFairWaste, IsGreatestFair, spared, price_of, worth_of, steps_alone};

use crate::kinds::Prices;
use action_table::{Action, row};
use combo_effects::cp_cost;
use craft_settings::{Settings, allowed};
use craft_state::{Combo, Perfection, State};

impl Prices {
    /// Fair prices with these of CP (at most 1000), of a step (at most 10000) and of a coin (1 up to the greater of
    /// these two): those of durability and Waste Not are the greatest that are fair, up to 15 and 30 times that of CP
    /// and a step more.
    pub fn fair(g: &Settings, cp: u32, step: u32, coin: u32) -> Prices
        requires cp { cp ≤ 1000 }
        requires step { step ≤ 10000 }
        requires low { 1 ≤ coin }
        requires high { coin ≤ max cp step }
        ensures cp { result.cp ≡ cp }
        ensures step { result.step ≡ step }
        ensures coin { result.coin ≡ coin }
        ensures five { IsGreatestFair (15 * cp + step) (IsFairFive g.now cp step) result.five }
        ensures waste { IsGreatestFair (30 * cp + step) (IsFairWaste g.now cp step) result.waste }
        ensures fair { AreFair g.now result }
        ensures small { AreSmall result }
    {
        let five = five(g, cp, step);
        let waste = waste(g, cp, step);
        Prices {
            cp,
            five,
            waste,
            step,
            coin,
        }
    }

    /// The prices of a bound by the number of steps alone: each move costs one, and so many steps are worth so many.
    pub fn of_steps(g: &Settings) -> Prices
        ensures value { result ≡ steps_alone }
        ensures fair { AreFair g.now result }
        ensures small { AreSmall result }
    {
        let _level = g.level;
        Prices {
            cp: 0,
            five: 0,
            waste: 0,
            step: 1,
            coin: 1,
        }
    }
}

// The lesser of two where the test holds, and else the second.
fn at_most(on: bool, most: u32, other: u32) -> u32
    ensures { result ≡ (if on then min most other else other) }
{
    if on { most.min(other) } else { other }
}

// The price of five points of durability.
#[tactic(auto, using(crate::proofs::Fairness::quotients))]
fn five(g: &Settings, cp: u32, step: u32) -> u32
    requires cp { cp ≤ 1000 }
    requires step { step ≤ 10000 }
    ensures fair { IsFairFive g.now cp step result }
    ensures no_more { (m : ℕ) → m ≤ 15 * cp + step → IsFairFive g.now cp step m → m ≤ result }
    ensures low { cp ≤ result }
    ensures high { result ≤ 15 * cp + step }
{
    let free = 15 * cp + step;
    let mended = at_most(allowed(g, Action::MastersMend), (88 * cp + step) / 6, free);
    let kept = at_most(
        allowed(g, Action::Manipulation),
        (96 * cp + step) / 8,
        mended,
    );
    let whole = (112 * cp + step) / (g.durability / 5 - 1);
    at_most(allowed(g, Action::ImmaculateMend), whole, kept)
}

// The price of a step of Waste Not.
fn waste(g: &Settings, cp: u32, step: u32) -> u32
    requires cp { cp ≤ 1000 }
    requires step { step ≤ 10000 }
    ensures fair { IsFairWaste g.now cp step result }
    ensures no_more { (m : ℕ) → m ≤ 30 * cp + step → IsFairWaste g.now cp step m → m ≤ result }
    ensures high { result ≤ 30 * cp + step }
{
    let free = 30 * cp + step;
    let short = at_most(allowed(g, Action::WasteNot), (56 * cp + step) / 4, free);
    at_most(allowed(g, Action::WasteNotII), (98 * cp + step) / 8, short)
}

/// What a move costs after a combo, cut to whole coins of these prices.
#[tactic(auto, using(crate::proofs::Fairness::products), unfolding(crate::specs::Prices::price_of))]
pub fn price(p: &Prices, g: &Settings, combo: Combo, action: Action) -> u32
    requires { AreSmall p.now }
    ensures value { result ≡ price_of p.now g.now combo action }
    ensures high { result ≤ 400000 }
{
    let fives = row(action, g.level).durability / 5;
    let worn = wear(p, fives);
    (p.cp * cp(g, combo, action) + worn + p.step) / p.coin
}

// The CP that a move takes after a combo.
fn cp(g: &Settings, combo: Combo, action: Action) -> u32
    ensures value { result ≡ cp_of g.now combo action }
    ensures high { result ≤ 250 }
{
    if is_halved(g, action) {
        cp_cost(Action::Groundwork, g.level, combo)
    } else {
        cp_cost(action, g.level, combo)
    }
}

// Whether the action's place in the list of moves is that of a Groundwork whose durability doesn't last.
pub(crate) fn is_halved(g: &Settings, action: Action) -> bool
    ensures { result ≡ is_halved g.now action }
{
    match action {
        Action::CarefulSynthesis => !allowed(g, action),
        _ => false,
    }
}

// What so many fives of durability cost, whole or halved by a step of Waste Not.
#[tactic(auto, using(crate::proofs::Fairness::products))]
fn wear(p: &Prices, fives: u32) -> u32
    requires small { AreSmall p.now }
    requires fives { fives ≤ 4 }
    ensures value { result ≡ wear_cost p.now.five p.now.waste fives }
    ensures high { result ≤ 100000 }
{
    let whole = p.five * fives;
    let halved = p.five * fives.div_ceil(2) + p.waste;
    whole.min(halved)
}

/// What the means of a state are worth with so many steps left (at most 300), cut to whole coins of these prices.
#[tactic(auto, using(crate::proofs::Fairness::products), unfolding(crate::specs::Prices::worth_of))]
pub fn worth(p: &Prices, s: &State, steps: u32) -> u32
    requires small { AreSmall p.now }
    requires steps { steps ≤ 300 }
    ensures { result ≡ worth_of p.now s.now steps }
{
    let fives = s.durability / 5 + s.effects.manipulation.min(steps.saturating_sub(1));
    let waste = s.effects.waste.min(steps);
    let spare = spare(p, s.effects.perfection);
    let overdraft = p.five;
    (p.cp * s.cp + p.five * fives + p.waste * waste + spare + overdraft + p.step * steps) / p.coin
}

// What Trained Perfection may still spare.
fn spare(p: &Prices, perfection: Perfection) -> u32
    requires { AreSmall p.now }
    ensures value { result ≡ spared p.now perfection }
    ensures high { result ≤ 100000 }
{
    match perfection {
        Perfection::Ready => (4 * p.five).saturating_sub(p.step),
        Perfection::On => 4 * p.five,
        Perfection::Spent => 0,
    }
}
