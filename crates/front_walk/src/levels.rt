// The levels of a walk.
ghost use Rattle.std.specs.Prelude.{◌≡◌, ◌≤◌, ◌-◌, IfOk, IsTrue, All, map};
ghost use Rattle.pareto_front.specs.Covers.{uncovered};
ghost use Rattle.front_walk.specs.Asking.{AllMayAsk, AllStillAsk};
ghost use Rattle.front_walk.specs.Nodes.{AreLinks, IsLevel, IsNode, goes_and_passes, link_of, links_in, nodes_by};

use crate::expanding::{expand, first_level};
use crate::links::{Ways, links_of};
use crate::state_test::StateTest;
use crate::walk::{Stage, Walk};
use crate::walker::Walker;
use action_table::WantMemory;
use pareto_front::PackedNode;
use std::alloc::Global;
use std::thread::Threads;
use worker_gate::{Crew, Gate};

/// The levels below a total: the ways back of all but the last, the nodes of the last one, and how many there are of
/// each.
#[derive(Drop)]
pub(crate) struct Levels {
    pub(crate) links: Vec<Ways>,
    pub(crate) last: Vec<PackedNode>,
    pub(crate) sizes: Vec<u64>,
}

/// The levels below `n`. Their ways back are there where they are to be kept.
pub(crate) fn levels_below<T: StateTest, R: Threads + Sync, G: Gate>(
    crew: &mut Crew<'_, R, G, Walker<T::Asker>>,
    alloc: Global,
    walk: &Walk<'_, T>,
    n: u32,
    keeps_ways: bool,
) -> Result<Levels, WantMemory>
    requires some { 1 ≤ n }
    requires askers { AllMayAsk (T.may_ask walk.now.test.now) crew.old.workers }
    ensures askers { AllMayAsk (T.may_ask walk.now.test.now) crew.new.workers }
    ensures still { AllStillAsk T.still_asks crew.old.workers crew.new.workers }
    ensures links { let w = walk.now in
        IfOk result (λ r. IsTrue keeps_ways → AreLinks w.g.now w.from.now (T.passes w.test.now) n (n - 1) (map links_in r.links.items)) }
    ensures level { let w = walk.now in
        IfOk result (λ r. IsLevel w.g.now w.from.now (T.passes w.test.now) n (n - 1) r.last.items r.sizes.items) }
{
    let mut links = Vec::new(alloc);
    let mut last = first_level(crew, alloc, walk, n)?;
    let mut sizes = Vec::new(alloc);
    sizes.push(last.len() as u64)?;
    for k in 1..n {
        let next = next_level(crew, alloc, walk, n - k, &last)?;
        links.push(ways_of(alloc, &last, keeps_ways)?)?;
        sizes.push(next.len() as u64)?;
        last = next;
    }
    Ok(Levels { links, last, sizes })
}

// The ways back from the nodes of a level, or nothing.
fn ways_of(alloc: Global, level: &[PackedNode], keeps_ways: bool) -> Result<Ways, WantMemory>
    ensures { IfOk result (λ ways. IsTrue keeps_ways → links_in ways ≡ map link_of level.now) }
{
    if keeps_ways {
        links_of(alloc, level)
    } else {
        Ok(Ways::Near(Vec::new(alloc)))
    }
}

// The children of a level that go on and pass, and that no other of them covers.
fn next_level<T: StateTest, R: Threads + Sync, G: Gate>(
    crew: &mut Crew<'_, R, G, Walker<T::Asker>>,
    alloc: Global,
    walk: &Walk<'_, T>,
    left: u32,
    nodes: &[PackedNode],
) -> Result<Vec<PackedNode>, WantMemory>
    requires askers { AllMayAsk (T.may_ask walk.now.test.now) crew.old.workers }
    requires nodes { All (IsNode walk.now.g.now (T.allows walk.now.test.now)) nodes.now }
    ensures askers { AllMayAsk (T.may_ask walk.now.test.now) crew.new.workers }
    ensures still { AllStillAsk T.still_asks crew.old.workers crew.new.workers }
    ensures kept { let w = walk.now in
        IfOk result (λ v. v.items ≡ uncovered (nodes_by w.g.now (goes_and_passes w.g.now (T.passes w.test.now) left) nodes.now)) }
{
    if nodes.is_empty() {
        return Ok(Vec::new(alloc));
    }
    let stage = Stage { walk, left, nodes };
    expand(crew, alloc, &stage)
}
