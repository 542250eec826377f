//! The least base quality with which a craft's quality reaches all that counts.
#![tactic(auto)]

ghost use Rattle.std.specs.Prelude.{◌≡◌, ◌≤◌, ◌↔◌, IfOk, IsTrue};
ghost use Rattle.macro_order.specs.Order.{NothingCompletes};
ghost use Rattle.stat_sweep.specs.Bases.{IsEnough};
ghost use Rattle.stat_sweep.specs.Sweeping.{IsSwept, FallsShort, is_nothing, is_short, is_least};

mod halving;
pub mod laws;
mod plan;
mod solver;
mod swept;
#[cfg(test)]
mod tests;

use action_table::WantMemory;
use craft_settings::Settings;
use halving::{best_at, halve};
pub use plan::Plan;
pub use solver::Solver;
use std::alloc::Global;
pub use swept::Swept;

/// The greatest base quality that is tried.
pub const MOST_BASE: u32 = 5000;

/// How often a solver is asked in a sweep at most: once at the greatest base quality, and then as often as the range below it
/// can be halved.
pub const MOST_CALLS: u32 = 14;

/// The least base quality, from 1 to 5000, with which some macro completes the craft and has all the quality that
/// counts. The base quality of the settings themselves doesn't matter.
///
/// The solver is ready, and hasn't been asked before. It is asked at most 14 times, also where memory is refused.
pub fn sweep<V: Solver>(alloc: Global, g: &Settings, solver: &mut V) -> Result<Swept, WantMemory>
    requires calls { V.calls solver.old ≡ 0 }
    requires ready { V.ready solver.old }
    ensures swept { IfOk result (IsSwept g.now) }
    ensures nothing { IfOk result (λ s. IsTrue (is_nothing s) ↔ NothingCompletes g.now) }
    ensures short { IfOk result (λ s. IsTrue (is_short s) ↔ FallsShort g.now) }
    ensures least { IfOk result (λ s. IsTrue (is_least s) ↔ IsEnough g.now MOST_BASE) }
    ensures calls { V.calls solver.new ≤ MOST_CALLS }
{
    let Some(most) = best_at(alloc, g, MOST_BASE, solver)? else {
        return Ok(Swept::Nothing);
    };
    if !most.is_enough {
        return Ok(Swept::Short { at: most.plan });
    }
    halve(alloc, g, most.plan, solver)
}
