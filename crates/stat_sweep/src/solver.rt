ghost use Rattle.std.specs.Prelude.{ℕ, ◌≡◌, ◌<◌, ◌+◌, IfOk, MatchOption, ⊤};
ghost use Rattle.macro_order.specs.Order.{IsBest, NothingCompletes};

use crate::MOST_CALLS;
use action_table::{Action, WantMemory};
use craft_settings::Settings;
use std::alloc::Global;

/// What answers the best macro of a craft. It counts how often it was asked.
pub trait Solver {
    /// How often it was asked.
    ghost calls: { Self → ℕ };

    /// What it needs to answer, and keeps.
    ghost ready: { Self → Type 0 } = { λ _. ⊤ };

    /// The best macro, and None where no legal macro completes the craft. Refused for memory it counts the call too.
    /// It has been asked fewer than 14 times before.
    fn solve(&mut self, alloc: Global, g: &Settings) -> Result<Option<Vec<Action>>, WantMemory>
        requires calls { calls self.old < MOST_CALLS }
        requires ready { ready self.old }
        ensures best { IfOk result (λ found. MatchOption found (NothingCompletes g.now) (λ m. IsBest g.now m.items)) }
        ensures calls { calls self.new ≡ calls self.old + 1 }
        ensures ready { ready self.new };
}
