//! The search by levels over any test of states, from any state of a craft that isn't over.
#![tactic(auto)]

ghost use Rattle.std.specs.Prelude.{◌≡◌, ◌≤◌, ◌-◌, [], IfOk, IfSome, MatchOption, map};
ghost use Rattle.prefix_fronts.specs.Prefix.{completions};
ghost use Rattle.front_walk.specs.Asking.{AllMayAsk, AllStillAsk};
ghost use Rattle.front_walk.specs.Nodes.{AreLinks, IsLevel, links_in};
ghost use Rattle.front_walk.specs.Walking.{IsSoonestCompletion, sizes_below};

mod children;
mod endings;
mod expanding;
mod levels;
mod links;
mod slice;
mod state_test;
#[cfg(test)]
mod tests;
mod walk;
mod walker;

use action_table::{Action, WantMemory};
use endings::{endings, soonest};
use levels::{Levels, levels_below};
use links::{climb, link_of, links_of};
pub use state_test::StateTest;
use std::alloc::Global;
use std::thread::Threads;
pub use walk::Walk;
pub use walker::Walker;
use worker_gate::{Crew, Gate};

/// Actions that complete a craft, and how many lists of actions there are in the front of each length below theirs.
#[derive(Drop)]
pub struct Completion {
    pub actions: Vec<Action>,
    pub sizes: Vec<u64>,
}

/// The best completion of `n` actions, 1 or more, with the wanted quality: of the completions that the last front leads
/// to the one of the fewest seconds, and of these the earliest in action order. None exactly where there is no
/// completion. Each of the 1 to 64 workers may ask the test, and may ask it afterwards too, also where memory is
/// refused.
pub fn best_of<T: StateTest, R: Threads + Sync, G: Gate>(
    crew: &mut Crew<'_, R, G, Walker<T::Asker>>,
    alloc: Global,
    walk: &Walk<'_, T>,
    n: u32,
) -> Result<Option<Completion>, WantMemory>
    requires some { 1 ≤ n }
    requires askers { AllMayAsk (T.may_ask walk.now.test.now) crew.old.workers }
    ensures askers { AllMayAsk (T.may_ask walk.now.test.now) crew.new.workers }
    ensures still { AllStillAsk T.still_asks crew.old.workers crew.new.workers }
    ensures best { let w = walk.now in let passes = T.passes w.test.now in
        IfOk result (λ r. MatchOption r (completions w.g.now w.from.now w.target passes n ≡ [])
        (λ c. IsSoonestCompletion w.g.now w.from.now w.target passes n c.actions.items)) }
    ensures sizes { let w = walk.now in
        IfOk result (λ r. IfSome r (λ c. c.sizes.items ≡ sizes_below w.g.now w.from.now (T.passes w.test.now) n)) }
{
    let levels = levels_below(crew, alloc, walk, n, true)?;
    last_step(alloc, walk, n, levels)
}

/// How many lists of actions there are in the front of each length below `n`, which is 1 or more. Each of the 1 to 64
/// workers may ask the test, and may ask it afterwards too, also where memory is refused. Of each level nothing but its
/// size is kept.
pub fn sizes<T: StateTest, R: Threads + Sync, G: Gate>(
    crew: &mut Crew<'_, R, G, Walker<T::Asker>>,
    alloc: Global,
    walk: &Walk<'_, T>,
    n: u32,
) -> Result<Vec<u64>, WantMemory>
    requires some { 1 ≤ n }
    requires askers { AllMayAsk (T.may_ask walk.now.test.now) crew.old.workers }
    ensures askers { AllMayAsk (T.may_ask walk.now.test.now) crew.new.workers }
    ensures still { AllStillAsk T.still_asks crew.old.workers crew.new.workers }
    ensures sizes { let w = walk.now in
        IfOk result (λ v. v.items ≡ sizes_below w.g.now w.from.now (T.passes w.test.now) n) }
{
    let Levels { sizes, .. } = levels_below(crew, alloc, walk, n, false)?;
    Ok(sizes)
}

// The best completion that the last level leads to, if there is one.
fn last_step<T: StateTest>(
    alloc: Global,
    walk: &Walk<'_, T>,
    n: u32,
    levels: Levels,
) -> Result<Option<Completion>, WantMemory>
    requires some { 1 ≤ n }
    requires links { let w = walk.now in
        AreLinks w.g.now w.from.now (T.passes w.test.now) n (n - 1) (map links_in levels.links.items) }
    requires level { let w = walk.now in
        IsLevel w.g.now w.from.now (T.passes w.test.now) n (n - 1) levels.last.items levels.sizes.items }
    ensures best { let w = walk.now in let passes = T.passes w.test.now in
        IfOk result (λ r. MatchOption r (completions w.g.now w.from.now w.target passes n ≡ [])
        (λ c. IsSoonestCompletion w.g.now w.from.now w.target passes n c.actions.items)) }
    ensures sizes { let w = walk.now in
        IfOk result (λ r. IfSome r (λ c. c.sizes.items ≡ sizes_below w.g.now w.from.now (T.passes w.test.now) n)) }
{
    let Levels {
        mut links,
        last,
        sizes,
    } = levels;
    let ends = endings(alloc, walk, &last)?;
    match soonest(&ends) {
        None => Ok(None),
        Some(end) => {
            links.push(links_of(alloc, &last)?)?;
            let actions = climb(alloc, &links, n as usize, &link_of(&end))?;
            Ok(Some(Completion { actions, sizes }))
        }
    }
}
