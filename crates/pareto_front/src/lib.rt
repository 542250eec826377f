//! Nodes of a search that no other node covers, and states that are kept where none covers them.
#![tactic(auto)]

ghost use Rattle.std.specs.Prelude.{◌≡◌, IfOk};
ghost use Rattle.pareto_front.specs.Covers.{uncovered};
ghost use Rattle.pareto_front.specs.Pieces.{nodes_of};

mod columns;
mod compact;
mod kept;
mod key;
pub mod laws;
mod marking;
mod node;
mod numbers;
mod parts;
mod piece;
mod pieces;
mod sweep;
#[cfg(test)]
mod tests;

use action_table::WantMemory;
pub use columns::Columns;
pub use compact::PackedNode;
pub use kept::Kept;
use marking::{keep_marked, marks_of};
pub use node::Node;
use parts::{divide, part_count};
use pieces::pieces_of;
use std::alloc::Global;
use std::thread::Threads;
use sweep::keep_all;

/// The nodes of a level that no node of it covers, in order. A node covers another where progress
/// and effects are equal, its CP, durability and quality are not less, and its seconds are fewer, or
/// as many from an earlier place.
pub fn prune(
    rt: &(impl Threads + Sync),
    alloc: Global,
    level: Vec<Node>,
) -> Result<Vec<Node>, WantMemory>
    ensures { IfOk result (λ kept. kept.items ≡ uncovered level.items) }
{
    let packed = pack_all(alloc, &level)?;
    drop(level);
    let kept = prune_packed(rt, alloc, packed)?;
    unpack_all(alloc, &kept)
}

// The nodes of a level in little room.
fn pack_all(alloc: Global, level: &[Node]) -> Result<Vec<PackedNode>, WantMemory>
    ensures { IfOk result (λ packed. packed.items ≡ level.now) }
{
    let mut packed = Vec::new(alloc);
    for node in level {
        packed.push(PackedNode::of(node))?;
    }
    Ok(packed)
}

// The nodes that stand in little room.
fn unpack_all(alloc: Global, packed: &[PackedNode]) -> Result<Vec<Node>, WantMemory>
    ensures { IfOk result (λ level. level.items ≡ packed.now) }
{
    let mut level = Vec::new(alloc);
    for node in packed {
        level.push(node.node())?;
    }
    Ok(level)
}

/// The same of nodes in little room: those of a level that no node of it covers, in order.
pub fn prune_packed(
    rt: &(impl Threads + Sync),
    alloc: Global,
    level: Vec<PackedNode>,
) -> Result<Vec<PackedNode>, WantMemory>
    ensures { IfOk result (λ kept. kept.items ≡ uncovered level.items) }
{
    prune_lists(rt, alloc, &[level.as_slice()])
}

/// The same of a level that stands in several lists, one after another. From as many threads as there are processors.
pub fn prune_lists(
    rt: &(impl Threads + Sync),
    alloc: Global,
    lists: &[&[PackedNode]],
) -> Result<Vec<PackedNode>, WantMemory>
    ensures { IfOk result (λ kept. kept.items ≡ uncovered (nodes_of lists.now)) }
{
    let level = pieces_of(alloc, lists)?;
    let runs = divide(rt, alloc, &level.pieces, level.len)??;
    let kept = keep_all(rt, alloc, &runs, part_count(level.len))??;
    drop(runs);
    let marks = marks_of(alloc, level.len, &kept)?;
    drop(kept);
    keep_marked(rt, alloc, &level, &marks)
}
