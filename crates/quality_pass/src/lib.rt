//! The greatest quality of a craft, and the least budgets of the table of bounds, which are filled beforehand.
#![tactic(auto)]

ghost use Rattle.std.specs.Prelude.{◌≡◌, ◌≤◌, Some, min, All, IfOk, length};
ghost use Rattle.seat_tables.specs.Seats.{IsOf, StillSees};
ghost use Rattle.relaxed_moves.specs.Budget.{start_potential_of};
ghost use Rattle.quality_pass.specs.Answer.{IsGreatestQuality, LimitsHold, AllStillSee, AllSeeBudgets, HaveFloor};
ghost use Rattle.quality_pass.specs.declared.TheConstants.{LAST_FILLED};

#[cfg(test)]
mod tests;

use action_table::WantMemory;
use best_search::quality_from;
use craft_settings::Settings;
use quality_bound::{QualityTruth, fill_budget};
use relaxed_moves::start_potential;
use seat_tables::{Seat, Shared};
use std::alloc::Global;
use std::thread::Threads;
use step_rules::start;
use worker_gate::{Crew, Gate};

/// Up to which budget the table is filled before the search.
pub const LAST_FILLED: u32 = 63;

/// The greatest quality that counts of a complete legal macro, or None where no legal macro completes the craft, and
/// the seats, in order.
///
/// Table and 1 to 64 seats belong to the settings `g` and the grain. The answer is exact whatever the seats' floors are,
/// and whatever others offer through the table meanwhile. Each seat still belongs to the table, has seen what it had
/// seen, and in its part of the effects numbers each index of the budgets up to 63. Where there is a quality, it is the
/// floor of each seat. Each proper prefix of a complete legal macro has a limit of at least the macro's quality. Refused
/// for memory the seats are dropped.
pub fn best_quality<G: Gate>(
    rt: &(impl Threads + Sync),
    alloc: Global,
    g: &Settings,
    grain: u32,
    shared: &Shared<QualityTruth>,
    seats: Vec<Seat<QualityTruth>>,
    gate: &G,
) -> Result<(Option<u32>, Vec<Seat<QualityTruth>>), WantMemory>
    requires low { 1 ≤ length seats.items }
    requires high { length seats.items ≤ 64 }
    requires of { All (IsOf shared.now) seats.items }
    requires same { shared.now.truth.g ≡ g.now }
    requires grain { shared.now.truth.grain ≡ grain }
    ensures quality { IfOk result (λ made. IsGreatestQuality g.now made.0) }
    ensures as_many { IfOk result (λ made. length made.1.items ≡ length seats.items) }
    ensures of { IfOk result (λ made. All (IsOf shared.now) made.1.items) }
    ensures still { IfOk result (λ made. AllStillSee seats.items made.1.items) }
    ensures floor { IfOk result (λ made. HaveFloor made.0 made.1.items) }
    ensures filled { IfOk result (λ made. AllSeeBudgets grain (min LAST_FILLED (start_potential_of g.now)) made.1.items) }
    ensures limits { IfOk result (λ _. LimitsHold g.now grain) }
{
    let mut seats = seats;
    fill_budgets(rt, shared, &mut seats, gate);
    let mut crew = Crew::new(rt, gate, seats);
    let from = start(g);
    let best = quality_from(&crew, alloc, g, &from)?;
    offer_all(&mut crew, shared, best);
    Ok((best, crew.into_workers()))
}

// Fills the least budgets, each seat its part.
fn fill_budgets<G: Gate>(
    rt: &(impl Threads + Sync),
    shared: &Shared<QualityTruth>,
    seats: &mut [Seat<QualityTruth>],
    gate: &G,
)
    requires low { 1 ≤ length seats.old }
    requires high { length seats.old ≤ 64 }
    requires of { All (IsOf shared.now) seats.old }
    ensures of { All (IsOf shared.now) seats.new }
    ensures still { AllStillSee seats.old seats.new }
    ensures filled { let truth = shared.now.truth in
        AllSeeBudgets truth.grain (min LAST_FILLED (start_potential_of truth.g)) seats.new }
{
    let last = LAST_FILLED.min(start_potential(&shared.truth().g));
    for budget in 0..last + 1 {
        fill_budget(rt, shared, seats, gate, budget);
    }
}

// Offers the greatest quality by each seat, where there is one.
fn offer_all<R: Threads + Sync, G: Gate>(
    crew: &mut Crew<'_, R, G, Seat<QualityTruth>>,
    shared: &Shared<QualityTruth>,
    best: Option<u32>,
)
    requires of { All (IsOf shared.now) crew.old.workers }
    requires quality { IsGreatestQuality shared.now.truth.g best }
    ensures as_many { length crew.new.workers ≡ length crew.old.workers }
    ensures of { All (IsOf shared.now) crew.new.workers }
    ensures still { AllStillSee crew.old.workers crew.new.workers }
    ensures floor { HaveFloor best crew.new.workers }
{
    let Some(quality) = best else {
        return;
    };
    crew.each(
        |_k, seat: &mut Seat<QualityTruth>|
            requires { IsOf shared.now seat.now × IsGreatestQuality shared.now.truth.g (Some quality) }
        { offer_one(shared, seat, quality) },
    );
}

// Offers the greatest quality, which is then the seat's floor.
fn offer_one(shared: &Shared<QualityTruth>, seat: &mut Seat<QualityTruth>, quality: u32)
    requires of { IsOf shared.now seat.old }
    requires quality { IsGreatestQuality shared.now.truth.g (Some quality) }
    ensures of { IsOf shared.now seat.new }
    ensures still { StillSees seat.old.view seat.new.view }
    ensures floor { seat.new.view.floor ≡ Some quality }
{
    shared.offer(seat, quality);
}
