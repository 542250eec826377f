// The table: the greatest worths over walks, to be asked for.
ghost use Rattle.std.specs.Prelude.{◌≡◌, ℕ, ◌+◌, ◌*◌, ◌^◌, ◌<◌, ◌≤◌, IfOk};
ghost use Rattle.walk_table.specs.Words.{greatest_word};

use crate::filling::fill_all;
use crate::graph::Graph;
use crate::pieces::Filled;
use std::alloc::{AllocError, Global};
use std::marker::Model;
use std::thread::Threads;

/// What a table answers of.
#[derive(Clone, Copy, Debug, PartialEq, Eq)]
pub struct Limits {
    /// The greatest budget, below 2^32, in the unit of the edges' costs.
    pub top: usize,
    /// The number of needs, 1 at least: the needs 0 to this less 1, in the unit of the edges' shifts.
    pub needs: usize,
    /// The most that a walk is worth, 0 to 65534, in the unit of the edges' gains.
    pub most: u16,
}

/// The greatest worths over the walks in a graph, for each budget up to a greatest one, each node and each need below a
/// number: one word of sixteen bits each. It is read by any number of threads at once.
#[derive(Drop)]
pub struct WalkTable {
    filled: Filled,
    top: usize,
    most: u16,
}

impl Model for WalkTable {
    ghost use Rattle.walk_table.specs.Tables.{TableFields, IsTable};

    ghost Value = { TableFields };

    ghost view = { λ s. record { graph = s.filled.graph; top = s.top; needs = s.filled.needs; most = s.most } };

    ghost invariant = { λ s. IsTable s.filled s.top s.most };
}

impl WalkTable {
    ghost use Rattle.walk_table.specs.Walks.{IsGreatestWorth};

    /// The table of a graph, filled by so many workers side by side; with none the caller fills it alone. It takes two
    /// bytes for each budget, node and need. The number of workers changes nothing that the table answers. Errors:
    /// only where memory runs out.
    pub fn new(
        rt: &(impl Threads + Sync),
        alloc: Global,
        graph: Graph,
        limits: Limits,
        workers: usize,
    ) -> Result<WalkTable, AllocError>
        requires needs { 0 < limits.needs }
        requires top { limits.top < 2 ^ 32 }
        requires most { limits.most < greatest_word }
        requires fits { (limits.top + 1) * (graph.nodes * limits.needs) < 2 ^ 64 }
        ensures graph { IfOk result (λ t. t.graph ≡ graph) }
        ensures top { IfOk result (λ t. t.top ≡ limits.top) }
        ensures needs { IfOk result (λ t. t.needs ≡ limits.needs) }
        ensures most { IfOk result (λ t. t.most ≡ limits.most) }
    {
        let mut filled = Filled::new(alloc, graph, limits.needs);
        fill_all(rt, alloc, &mut filled, limits.top, workers)?;
        Ok(WalkTable {
            filled,
            top: limits.top,
            most: limits.most,
        })
    }

    /// The greatest worth over all walks from the node that cost no more than the budget and shift at least the need,
    /// 0 to `most`: what a walk gains, but no more than `most`. None where there is no such walk. The budget is one up
    /// to `top`, the node one of the graph's, and the need one below `needs`.
    pub fn at(&self, budget: usize, node: usize, need: usize) -> Option<u16>
        requires budget { budget ≤ self.now.top }
        requires node { node < self.now.graph.nodes }
        requires need { need < self.now.needs }
        ensures { IsGreatestWorth self.now.graph self.now.most budget node need result }
    {
        let word = self.filled.column(budget, node)[need];
        if word == 0 {
            None
        } else {
            Some((word - 1).min(self.most))
        }
    }
}
