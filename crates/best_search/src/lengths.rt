// The fewest actions with which a list completes the craft with the greatest quality.
ghost use Rattle.std.specs.Prelude.{◌≡◌, ◌≤◌, ◌+◌, IfOk, MatchOption, length};
ghost use Rattle.macro_order.specs.Order.{IsBestFrom};
ghost use Rattle.prefix_fronts.specs.Prefix.{IsReachedFrom};
ghost use Rattle.best_search.specs.Looking.{IsTable, TakesAtLeast};
ghost use Rattle.best_search.specs.declared.tables.TheConstants.{COARSE_STEPS};

use crate::aim::Aim;
use crate::goal::Goal;
use crate::tables::{COARSE_STEPS, Coarse, fine_tables};
use action_table::{Action, WantMemory};
use front_walk::{Completion, Walk, Walker, best_of};
use std::alloc::Global;
use std::thread::Threads;
use worker_gate::{Crew, Gate};

// For how many lengths the finer tables are filled together.
const LENGTHS: u32 = 6;

// No list that completes a craft from any of its states is longer.
const LONGEST: u32 = 280;

/// The best of the lists that complete the craft with the greatest quality. The finer tables are filled only where the
/// coarse one is that of a large craft, or tells of fewer steps than the list takes.
pub(crate) fn best_of_lengths<R: Threads + Sync, G: Gate>(
    crew: &mut Crew<'_, R, G, Walker<()>>,
    alloc: Global,
    goal: &Goal<'_>,
    coarse: Coarse,
) -> Result<Vec<Action>, WantMemory>
    requires reached { IsReachedFrom goal.now.g.now goal.now.from.now goal.now.target }
    requires table { IsTable goal.now.g.now coarse.table }
    ensures best { IfOk result (λ m. IsBestFrom goal.now.g.now goal.now.from.now m.items) }
    ensures as_many { length crew.new.workers ≡ length crew.old.workers }
{
    let low = first_length(goal, &coarse, 1);
    if !coarse.is_small() {
        drop(coarse);
        return best_of_many(crew, alloc, goal, low);
    }
    if let Some(actions) = best_of_few(crew, alloc, goal, &coarse, low)? {
        return Ok(actions);
    }
    let low = coarse.steps + 1;
    drop(coarse);
    best_by_more_tables(crew, alloc, goal, low)
}

// The first length, from one that no list with the greatest quality is shorter than, which the coarse table lets
// through, or the one after those that it tells of. No list with the greatest quality is shorter.
fn first_length(goal: &Goal<'_>, coarse: &Coarse, low: u32) -> u32
    requires some { 1 ≤ low }
    requires few { low ≤ coarse.now.steps + 1 }
    requires low { TakesAtLeast goal.now.g.now goal.now.from.now goal.now.target low }
    requires table { IsTable goal.now.g.now coarse.now.table }
    ensures some { 1 ≤ result }
    ensures few { result ≤ coarse.now.steps + 1 }
    ensures shortest { TakesAtLeast goal.now.g.now goal.now.from.now goal.now.target result }
{
    let aim = Aim {
        goal: *goal,
        tables: coarse.tables(),
    };
    let mut n = low;
    while n <= coarse.steps && !aim.lets_through(n) {
        n += 1;
    }
    n
}

// The best of the lists with the greatest quality, where the fewest actions of them are `low` or more and no more than
// the coarse table tells of. None where they are more.
fn best_of_few<R: Threads + Sync, G: Gate>(
    crew: &mut Crew<'_, R, G, Walker<()>>,
    alloc: Global,
    goal: &Goal<'_>,
    coarse: &Coarse,
    low: u32,
) -> Result<Option<Vec<Action>>, WantMemory>
    requires some { 1 ≤ low }
    requires few { low ≤ coarse.now.steps + 1 }
    requires low { TakesAtLeast goal.now.g.now goal.now.from.now goal.now.target low }
    requires table { IsTable goal.now.g.now coarse.now.table }
    ensures best { let g = goal.now.g.now in let from = goal.now.from.now in IfOk result (λ r.
        MatchOption r (TakesAtLeast g from goal.now.target (coarse.now.steps + 1)) (λ m. IsBestFrom g from m.items)) }
    ensures as_many { length crew.new.workers ≡ length crew.old.workers }
{
    let aim = Aim {
        goal: *goal,
        tables: coarse.tables(),
    };
    best_within(crew, alloc, &aim, low, coarse.steps + 1)
}

// The best of the lists with the greatest quality, none of which has fewer than `low` actions, where the coarse table
// of a small craft told of no more.
fn best_by_more_tables<R: Threads + Sync, G: Gate>(
    crew: &mut Crew<'_, R, G, Walker<()>>,
    alloc: Global,
    goal: &Goal<'_>,
    low: u32,
) -> Result<Vec<Action>, WantMemory>
    requires some { 1 ≤ low }
    requires few { low ≤ COARSE_STEPS + 1 }
    requires low { TakesAtLeast goal.now.g.now goal.now.from.now goal.now.target low }
    requires reached { IsReachedFrom goal.now.g.now goal.now.from.now goal.now.target }
    ensures best { IfOk result (λ m. IsBestFrom goal.now.g.now goal.now.from.now m.items) }
    ensures as_many { length crew.new.workers ≡ length crew.old.workers }
{
    let coarse = Coarse::of_more_steps(crew, alloc, goal.g, goal.from)?;
    let first = first_length(goal, &coarse, low);
    drop(coarse);
    best_of_many(crew, alloc, goal, first)
}

// The best of the lists with the greatest quality, none of which has fewer than `low` actions, by the tables that tell
// most.
fn best_of_many<R: Threads + Sync, G: Gate>(
    crew: &mut Crew<'_, R, G, Walker<()>>,
    alloc: Global,
    goal: &Goal<'_>,
    low: u32,
) -> Result<Vec<Action>, WantMemory>
    requires some { 1 ≤ low }
    requires low { TakesAtLeast goal.now.g.now goal.now.from.now goal.now.target low }
    requires reached { IsReachedFrom goal.now.g.now goal.now.from.now goal.now.target }
    ensures best { IfOk result (λ m. IsBestFrom goal.now.g.now goal.now.from.now m.items) }
    ensures as_many { length crew.new.workers ≡ length crew.old.workers }
{
    let mut low = low;
    while low <= LONGEST {
        let tables = fine_tables(crew, alloc, goal.g, goal.from, low + LENGTHS - 1)?;
        let aim = Aim {
            goal: *goal,
            tables: &tables,
        };
        if let Some(actions) = best_within(crew, alloc, &aim, low, low + LENGTHS)? {
            return Ok(actions);
        }
        low += LENGTHS;
    }
    unreachable!()
}

// The best of the lists with the greatest quality, where the fewest actions of them are `low` or more and less than
// `high`. None where they are more.
fn best_within<R: Threads + Sync, G: Gate>(
    crew: &mut Crew<'_, R, G, Walker<()>>,
    alloc: Global,
    aim: &Aim<'_>,
    low: u32,
    high: u32,
) -> Result<Option<Vec<Action>>, WantMemory>
    requires some { 1 ≤ low }
    requires order { low ≤ high }
    requires low { TakesAtLeast aim.now.goal.g.now aim.now.goal.from.now aim.now.goal.target low }
    ensures best { let goal = aim.now.goal in IfOk result (λ r.
        MatchOption r (TakesAtLeast goal.g.now goal.from.now goal.target high) (λ m. IsBestFrom goal.g.now goal.from.now m.items)) }
    ensures as_many { length crew.new.workers ≡ length crew.old.workers }
{
    for n in low..high {
        if let Some(actions) = best_at(crew, alloc, aim, n)? {
            return Ok(Some(actions));
        }
    }
    Ok(None)
}

// The best of the lists with the greatest quality, where the fewest actions of them are `n`. None where they are more.
fn best_at<R: Threads + Sync, G: Gate>(
    crew: &mut Crew<'_, R, G, Walker<()>>,
    alloc: Global,
    aim: &Aim<'_>,
    n: u32,
) -> Result<Option<Vec<Action>>, WantMemory>
    requires some { 1 ≤ n }
    requires low { TakesAtLeast aim.now.goal.g.now aim.now.goal.from.now aim.now.goal.target n }
    ensures best { let goal = aim.now.goal in IfOk result (λ r.
        MatchOption r (TakesAtLeast goal.g.now goal.from.now goal.target (n + 1)) (λ m. IsBestFrom goal.g.now goal.from.now m.items)) }
    ensures as_many { length crew.new.workers ≡ length crew.old.workers }
{
    let walk = Walk {
        g: aim.goal.g,
        from: aim.goal.from,
        target: aim.goal.target,
        test: aim,
    };
    match best_of(crew, alloc, &walk, n)? {
        Some(found) => {
            let Completion { actions, sizes: _ } = found;
            Ok(Some(actions))
        }
        None => Ok(None),
    }
}
