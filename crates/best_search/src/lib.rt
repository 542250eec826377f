//! The best macro of a craft, and the best list of actions from any state of it that isn't over.
//!
//! First the greatest quality is found, and then the fewest actions with which a list completes the craft with it. Of
//! these lists the best is found among the lists that no other dominates.
#![tactic(auto)]

ghost use Rattle.std.specs.Prelude.{◌≡◌, IfOk, MatchOption, length};
ghost use Rattle.craft_settings.specs.Ranges.{IsFromTo};
ghost use Rattle.macro_order.specs.Order.{IsBest, IsBestFrom, NothingCompletes, NothingCompletesFrom};
ghost use Rattle.prefix_fronts.specs.Prefix.{IsOpen};

mod aim;
mod ceiling;
mod goal;
mod lengths;
mod parts;
mod tables;
#[cfg(test)]
mod tests;

use action_table::{Action, WantMemory};
use ceiling::highest_quality;
use craft_settings::Settings;
use craft_state::State;
use front_walk::Walker;
use goal::Goal;
use lengths::best_of_lengths;
pub use parts::{best_with_quality, quality_from};
use std::alloc::Global;
use std::thread::Threads;
use step_rules::start;
use tables::Coarse;
use worker_gate::{Crew, Gate};

/// `count` workers for a crew that looks for the best macro; a crew has 1 to 64. Errors: only where memory runs out.
pub fn seekers(alloc: Global, count: u32) -> Result<Vec<Walker<()>>, WantMemory>
    ensures { IfOk result (λ v. length v.items ≡ count) }
{
    let mut all = Vec::new(alloc);
    for _place in 0..count {
        all.push(Walker::new(alloc, ()))?;
    }
    Ok(all)
}

/// The best macro of a craft: of the complete legal macros with the greatest quality that counts those of the fewest
/// actions, of these those of the fewest seconds, and of these the earliest in action order. None exactly where no legal
/// macro completes the craft. The number of workers, 1 to 64, changes nothing of the answer. Errors: only where memory
/// runs out.
pub fn best_macro<R: Threads + Sync, G: Gate>(
    crew: &mut Crew<'_, R, G, Walker<()>>,
    alloc: Global,
    g: &Settings,
) -> Result<Option<Vec<Action>>, WantMemory>
    ensures best { IfOk result (λ r. MatchOption r (NothingCompletes g.now) (λ m. IsBest g.now m.items)) }
    ensures as_many { length crew.new.workers ≡ length crew.old.workers }
{
    let from = start(g);
    best_from(crew, alloc, g, &from)
}

/// The best macro of a craft, as `best_macro` has it, by so many workers, 1 to 64. Their number and the gate change nothing
/// of the answer. Errors: only where memory runs out.
pub fn best_with<G: Gate>(
    rt: &(impl Threads + Sync),
    alloc: Global,
    g: &Settings,
    workers: u32,
    gate: &G,
) -> Result<Option<Vec<Action>>, WantMemory>
    requires { IsFromTo 1 64 workers }
    ensures { IfOk result (λ r. MatchOption r (NothingCompletes g.now) (λ m. IsBest g.now m.items)) }
{
    let mut crew = Crew::new(rt, gate, seekers(alloc, workers)?);
    best_macro(&mut crew, alloc, g)
}

/// The best list of actions from a state of the craft that isn't over, in the same sense: its quality is that of the last
/// state, its actions and seconds are counted from the state on. None exactly where no list completes the craft from
/// there. The number of workers, 1 to 64, changes nothing of the answer. Errors: only where memory runs out.
pub fn best_from<R: Threads + Sync, G: Gate>(
    crew: &mut Crew<'_, R, G, Walker<()>>,
    alloc: Global,
    g: &Settings,
    from: &State,
) -> Result<Option<Vec<Action>>, WantMemory>
    requires { IsOpen g.now from.now }
    ensures best { IfOk result (λ r.
        MatchOption r (NothingCompletesFrom g.now from.now) (λ m. IsBestFrom g.now from.now m.items)) }
    ensures as_many { length crew.new.workers ≡ length crew.old.workers }
{
    let coarse = Coarse::of_craft(crew, alloc, g, from)?;
    let found = highest_quality(crew, alloc, g, from, &coarse)?;
    let Some(target) = found.quality else {
        return Ok(None);
    };
    let goal = Goal {
        g,
        from,
        target,
        filled: &found.filled,
    };
    let actions = best_of_lengths(crew, alloc, &goal, coarse)?;
    Ok(Some(actions))
}
