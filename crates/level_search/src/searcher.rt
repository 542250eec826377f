// The searchers, who are the walkers of a walk.
ghost use Rattle.std.specs.Prelude.{◌≡◌, IfOk, map};

use action_table::{Action, WantMemory};
use front_walk::Walker;
use quality_bound::QualityTruth;
use seat_tables::Seat;
use std::alloc::Global;
use step_bound::StepTruth;

/// A worker's seats at the two tables of bounds.
#[derive(Drop)]
pub struct Searcher {
    pub quality: Seat<QualityTruth>,
    pub steps: Seat<StepTruth>,
}

/// A macro, and how many survivors there are of each length from 0 on and below its own.
#[derive(Drop)]
pub struct FoundMacro {
    pub actions: Vec<Action>,
    pub counts: Vec<u64>,
}

/// A walker for each searcher.
pub(crate) fn hire(
    alloc: Global,
    searchers: Vec<Searcher>,
) -> Result<Vec<Walker<Searcher>>, WantMemory>
    ensures { IfOk result (λ walkers. map (λ w. w.asker) walkers.items ≡ searchers.items) }
{
    let mut walkers = Vec::with_capacity(alloc, searchers.len())?;
    for searcher in searchers {
        walkers.push(Walker::new(alloc, searcher))?;
    }
    Ok(walkers)
}

/// The searchers of the walkers.
pub(crate) fn release(
    alloc: Global,
    walkers: Vec<Walker<Searcher>>,
) -> Result<Vec<Searcher>, WantMemory>
    ensures { IfOk result (λ searchers. searchers.items ≡ map (λ w. w.asker) walkers.items) }
{
    let mut searchers = Vec::with_capacity(alloc, walkers.len())?;
    for walker in walkers {
        searchers.push(walker.into_asker())?;
    }
    Ok(searchers)
}
