ghost use Rattle.std.specs.Prelude.{ℕ, ◌≡◌, ◌≤◌, ◌+◌, ◌*◌, IfSome, option_map};
ghost use Rattle.relaxed_moves.specs.Optimum.{option_max};
ghost use Rattle.priced_moves.specs.FirstMoves.{leads_with};
ghost use Rattle.priced_moves.specs.Moves.{AreSmallUnits};
ghost use Rattle.priced_moves.specs.Optimum.{best, limit_of};
ghost use Rattle.priced_moves.specs.Prices.{AreFair, AreSmall};

use crate::kinds::{Prices, Seen, Terms, Units};
use crate::moves::{gain, is_move, move_on, seen};
use crate::prices::{price, worth};
use action_table::Action;
use craft_settings::Settings;
use craft_state::State;

/// The quality that a macro through a state can reach at most with so many steps left (at most 300), None where no list
/// of moves within its worth completes the craft.
///
/// Each list of moves is tried: this is for small worths, where a table of the bound is checked.
#[tactic(auto, unfolding(crate::specs::Optimum::limit_of))]
pub fn limit(p: &Prices, g: &Settings, units: &Units, s: &State, steps: u32) -> Option<u32>
    requires prices { AreSmall p.now }
    requires fair { AreFair g.now p.now }
    requires units { AreSmallUnits units.now }
    requires progress { s.now.progress ≤ g.now.progress }
    requires steps { steps ≤ 300 }
    ensures { result ≡ limit_of p.now g.now units.now s.now steps }
{
    let x = seen(g, units, s);
    let terms = Terms {
        prices: *p,
        settings: *g,
        units: *units,
    };
    let most = best(&terms, worth(p, s, steps), &x)?;
    let points = (units.quality as u64).saturating_mul(most);
    let cap = g.quality.min(g.target);
    Some((cap as u64).min(points.saturating_add(s.quality as u64)) as u32)
}

// The greatest gain over all lists of moves within a budget.
#[cycle(trying)]
fn best(terms: &Terms, budget: u32, x: &Seen) -> Option<u64>
    requires prices { AreSmall terms.now.prices }
    requires fair { AreFair terms.now.settings terms.now.prices }
    requires units { AreSmallUnits terms.now.units }
    ensures value { result ≡ best terms.now.prices terms.now.settings terms.now.units budget x.now }
    ensures high { IfSome result (λ n. n ≤ 100000 * budget) }
{
    let mut most = if x.need == 0 { Some(0) } else { None };
    for &action in Action::ALL.iter() {
        most = greater(most, lead(terms, budget, x, action));
    }
    most
}

// What a first move and the best after it gain.
#[cycle(trying)]
fn lead(terms: &Terms, budget: u32, x: &Seen, action: Action) -> Option<u64>
    requires prices { AreSmall terms.now.prices }
    requires fair { AreFair terms.now.settings terms.now.prices }
    requires units { AreSmallUnits terms.now.units }
    ensures value { result ≡ leads_with terms.now.prices terms.now.settings terms.now.units budget x.now action }
    ensures high { IfSome result (λ n. n ≤ 100000 * budget) }
{
    if !is_move(&terms.settings, x, action) {
        return None;
    }
    let cost = price(&terms.prices, &terms.settings, x.combo, action);
    if cost > budget {
        return None;
    }
    let next = move_on(&terms.settings, &terms.units, x, action);
    let points = gain(&terms.settings, &terms.units, x, action);
    let rest = best(terms, budget - cost, &next)?;
    Some(points as u64 + rest)
}

// The greater of two.
fn greater(a: Option<u64>, b: Option<u64>) -> Option<u64>
    ensures { result ≡ option_max a b }
{
    match (a, b) {
        (None, _) => b,
        (_, None) => a,
        (Some(m), Some(n)) => Some(m.max(n)),
    }
}
