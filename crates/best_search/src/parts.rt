// The two parts of a search, each alone: the greatest quality, and the best list where it is known.
ghost use Rattle.std.specs.Prelude.{◌≡◌, IfOk, length};
ghost use Rattle.macro_order.specs.Order.{IsBestFrom};
ghost use Rattle.prefix_fronts.specs.Prefix.{IsGreatestFrom, IsOpen, IsReachedFrom};
ghost use Rattle.quality_sweep.specs.Ahead.{IsGreatestQualityFrom};

use crate::ceiling::highest_quality;
use crate::goal::Goal;
use crate::lengths::best_of_lengths;
use crate::tables::{Coarse, tables_below};
use action_table::{Action, WantMemory};
use craft_settings::Settings;
use craft_state::State;
use front_walk::Walker;
use std::alloc::Global;
use std::thread::Threads;
use worker_gate::{Crew, Gate};

/// The greatest quality that counts with which a list completes the craft from a state that isn't over, None exactly where
/// no list completes it. The number of workers changes nothing of the answer. Errors: only where memory runs out.
pub fn quality_from<R: Threads + Sync, G, W>(
    crew: &Crew<'_, R, G, W>,
    alloc: Global,
    g: &Settings,
    from: &State,
) -> Result<Option<u32>, WantMemory>
    requires { IsOpen g.now from.now }
    ensures { IfOk result (IsGreatestQualityFrom g.now from.now) }
{
    let coarse = Coarse::of_craft(crew, alloc, g, from)?;
    let found = highest_quality(crew, alloc, g, from, &coarse)?;
    Ok(found.quality)
}

/// The best list of actions from a state of the craft that isn't over, as `best_from` has it, where `target` is the
/// greatest quality with which a list completes the craft from there. Errors: only where memory runs out.
pub fn best_with_quality<R: Threads + Sync, G: Gate>(
    crew: &mut Crew<'_, R, G, Walker<()>>,
    alloc: Global,
    g: &Settings,
    from: &State,
    target: u32,
) -> Result<Vec<Action>, WantMemory>
    requires open { IsOpen g.now from.now }
    requires reached { IsReachedFrom g.now from.now target }
    requires greatest { IsGreatestFrom g.now from.now target }
    ensures best { IfOk result (λ m. IsBestFrom g.now from.now m.items) }
    ensures as_many { length crew.new.workers ≡ length crew.old.workers }
{
    let coarse = Coarse::of_craft(crew, alloc, g, from)?;
    let filled = tables_below(crew, alloc, g, from, target)?;
    let goal = Goal {
        g,
        from,
        target,
        filled: &filled,
    };
    best_of_lengths(crew, alloc, &goal, coarse)
}
