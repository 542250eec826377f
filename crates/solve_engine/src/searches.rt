// The search for the best macro, by workers over shared tables.
ghost use Rattle.std.specs.Prelude.{◌≡◌, ◌≤◌, IfOk, MatchOption, All, length};
ghost use Rattle.level_search.specs.Searching.{IsSearcherOf};
ghost use Rattle.macro_order.specs.Order.{IsBest, NothingCompletes};
ghost use Rattle.seat_tables.specs.Seats.{IsOf};
ghost use Rattle.solve_words.specs.Words.{AreInRange};
ghost use Rattle.solve_engine.specs.Search.{IsFound};

use crate::machine::Machine;
use action_table::{Action, WantMemory};
use best_search::best_with;
use craft_settings::Settings;
use level_search::{FoundMacro, Searcher, best_macro};
use quality_bound::QualityTruth;
use quality_pass::best_quality;
use seat_tables::{Seat, Shared};
use solve_words::Words;
use std::alloc::Global;
use std::thread::Threads;
use step_bound::StepTruth;
use worker_gate::Gate;

/// The best macro with the sizes of its fronts, and a seat at the table of quality bounds.
#[derive(Drop)]
pub(crate) struct Found {
    pub(crate) actions: Vec<Action>,
    pub(crate) counts: Vec<u64>,
    pub(crate) table: Shared<QualityTruth>,
    pub(crate) seat: Seat<QualityTruth>,
}

/// The best macro of a craft, by as many workers and over bounds at the grain that the words name, or None where no
/// legal macro completes it.
pub(crate) fn find<R: Threads + Sync, G: Gate>(
    machine: &Machine<'_, R, G>,
    g: &Settings,
    given: &Words,
) -> Result<Option<Found>, WantMemory>
    requires { AreInRange given.now }
    ensures { IfOk result (λ found. MatchOption found (NothingCompletes g.now) (IsFound g.now given.now.grain)) }
{
    let Machine { rt, alloc, gate } = *machine;
    let Words { workers, grain, .. } = *given;
    let (table, first) = Shared::new(alloc, QualityTruth::new(g, grain))?;
    let seats = seats_of(alloc, &table, first, workers)?;
    let (quality, seats) = best_quality(rt, alloc, g, grain, &table, seats, gate)?;
    let Some(target) = quality else {
        return Ok(None);
    };
    let (steps, first) = Shared::new(alloc, StepTruth::new(g, grain))?;
    let searchers = searchers_of(alloc, &table, &steps, seats, first)?;
    let (found, searchers) = best_macro(
        rt, alloc, g, grain, target, &table, &steps, searchers, gate,
    )?;
    let seat = first_seat(&table, &steps, searchers);
    let FoundMacro { actions, counts } = found;
    Ok(Some(Found {
        actions,
        counts,
        table,
        seat,
    }))
}

/// The best macro of a craft without the sizes of its fronts, or None where no legal macro completes it.
pub(crate) fn best_of<R: Threads + Sync, G: Gate>(
    machine: &Machine<'_, R, G>,
    g: &Settings,
    given: &Words,
) -> Result<Option<Vec<Action>>, WantMemory>
    requires { AreInRange given.now }
    ensures { IfOk result (λ found. MatchOption found (NothingCompletes g.now) (λ m. IsBest g.now m.items)) }
{
    best_with(machine.rt, machine.alloc, g, given.workers, machine.gate)
}

// Seats for all workers.
fn seats_of(
    alloc: Global,
    table: &Shared<QualityTruth>,
    first: Seat<QualityTruth>,
    workers: u32,
) -> Result<Vec<Seat<QualityTruth>>, WantMemory>
    requires of { IsOf table.now first }
    requires some { 1 ≤ workers }
    ensures as_many { IfOk result (λ seats. length seats.items ≡ workers) }
    ensures of { IfOk result (λ seats. All (IsOf table.now) seats.items) }
{
    let mut first = first;
    let mut seats = Vec::new(alloc);
    for _worker in 1..workers {
        seats.push(table.split(&mut first))?;
    }
    seats.push(first)?;
    Ok(seats)
}

// The workers' seats, each with one at the table of step bounds.
fn searchers_of(
    alloc: Global,
    table: &Shared<QualityTruth>,
    steps: &Shared<StepTruth>,
    seats: Vec<Seat<QualityTruth>>,
    first: Seat<StepTruth>,
) -> Result<Vec<Searcher>, WantMemory>
    requires seats { All (IsOf table.now) seats.items }
    requires first { IsOf steps.now first }
    ensures as_many { IfOk result (λ searchers. length searchers.items ≡ length seats.items) }
    ensures of { IfOk result (λ searchers. All (IsSearcherOf table.now steps.now) searchers.items) }
{
    let mut first = first;
    let mut searchers = Vec::new(alloc);
    for seat in seats {
        searchers.push(Searcher {
            quality: seat,
            steps: steps.split(&mut first),
        })?;
    }
    Ok(searchers)
}

// The first searcher's seat at the table of quality bounds.
fn first_seat(
    table: &Shared<QualityTruth>,
    steps: &Shared<StepTruth>,
    searchers: Vec<Searcher>,
) -> Seat<QualityTruth>
    requires some { 1 ≤ length searchers.items }
    requires of { All (IsSearcherOf table.now steps.now) searchers.items }
    ensures { IsOf table.now result }
{
    let mut searchers = searchers;
    let Searcher { quality, steps: _ } = searchers.swap_remove(0);
    quality
}
