//! The best way to end a craft after actions that are already done.
#![tactic(auto)]

ghost use Rattle.std.specs.Prelude.{◌≡◌, ◌≤◌, ◌++◌, All, List, [], IfOk, MatchOption, length};
ghost use Rattle.action_table.specs.declared.action.Action.{Action as ActionFields};
ghost use Rattle.macro_order.specs.Order.{IsBest, IsBestAfter, NothingCompletes, NothingCompletesAfter};
ghost use Rattle.seat_tables.specs.Seats.{IsOf};
ghost use Rattle.resume_start.specs.Done.{IsUnderway};

pub mod laws;
#[cfg(test)]
mod tests;
mod underway;

use action_table::{Action, WantMemory};
use best_search::{best_from, seekers};
use craft_settings::Settings;
use front_walk::Walker;
use quality_bound::QualityTruth;
use seat_tables::{Seat, Shared};
use std::alloc::Global;
use std::thread::Threads;
pub use underway::{Underway, Unfit};
use worker_gate::{Crew, Gate};

/// The best list of actions after those that are done: together they are better than these with any other list that
/// completes the craft. None exactly where no list completes it after them. After no action it is the best macro, and
/// after the first actions of the best macro it is the rest of that. The number of workers, 1 to 64, changes nothing of
/// the answer. Errors: only where memory runs out.
pub fn best_rest<R: Threads + Sync, G: Gate>(
    crew: &mut Crew<'_, R, G, Walker<()>>,
    alloc: Global,
    craft: &Underway<'_>,
) -> Result<Option<Vec<Action>>, WantMemory>
    ensures best { let g = craft.now.g.now in let done = craft.now.done.now in
        IfOk result (λ r. MatchOption r (NothingCompletesAfter g done) (λ m. IsBestAfter g done m.items)) }
    ensures empty { let g = craft.now.g.now in craft.now.done.now ≡ [] →
        IfOk result (λ r. MatchOption r (NothingCompletes g) (λ m. IsBest g m.items)) }
    ensures rest { (rest : List ActionFields) → IsBest craft.now.g.now (craft.now.done.now ++ rest) →
        IfOk result (λ r. MatchOption r ⊥ (λ m. m.items ≡ rest)) }
{
    best_from(crew, alloc, craft.g, &craft.from)
}

/// The best list of actions after those that are done, as `best_rest` has it, for a caller with a table of bounds and
/// 1 to 64 seats at it.
///
/// Table and seats belong to the settings `g` and the grain. The done actions are legal in turn, and the craft isn't
/// over after them. Each seat has one worker. The seats are dropped, also where memory is refused.
pub fn best_after<G: Gate>(
    rt: &(impl Threads + Sync),
    alloc: Global,
    g: &Settings,
    grain: u32,
    done: &[Action],
    shared: &Shared<QualityTruth>,
    seats: Vec<Seat<QualityTruth>>,
    gate: &G,
) -> Result<Option<Vec<Action>>, WantMemory>
    requires low { 1 ≤ length seats.items }
    requires high { length seats.items ≤ 64 }
    requires of { All (IsOf shared.now) seats.items }
    requires same { shared.now.truth.g ≡ g.now }
    requires grain { shared.now.truth.grain ≡ grain }
    requires underway { IsUnderway g.now done.now }
    ensures best { IfOk result (λ r.
        MatchOption r (NothingCompletesAfter g.now done.now) (λ m. IsBestAfter g.now done.now m.items)) }
    ensures empty { done.now ≡ [] → IfOk result (λ r. MatchOption r (NothingCompletes g.now) (λ m. IsBest g.now m.items)) }
    ensures rest { (rest : List ActionFields) → IsBest g.now (done.now ++ rest) →
        IfOk result (λ r. MatchOption r ⊥ (λ m. m.items ≡ rest)) }
{
    // The mark of the table is a quality that some whole macro reaches. Unless nothing is done, maybe no list reaches it
    // after what is done, so it must not be a floor of this search. Its bounds are wider than those that the search
    // makes for itself.
    let mut crew = Crew::new(rt, gate, seekers(alloc, seats.len() as u32)?);
    match Underway::after(g, done) {
        Ok(craft) => best_rest(&mut crew, alloc, &craft),
        Err(_) => unreachable!(),
    }
}
