// The nodes of a level, found slice by slice by workers side by side.
ghost use Rattle.std.specs.Prelude.{◌≡◌, ◌≤◌, ◌<◌, ◌+◌, ◌-◌, ◌++◌, ℕ, IfOk, IsOk, All, length, slice_index_or};
ghost use Rattle.std.specs.List.{flat_map};
ghost use Rattle.worker_gate.specs.Cut.{cut};
ghost use Rattle.pareto_front.specs.Covers.{uncovered};
ghost use Rattle.pareto_front.specs.Pieces.{nodes_of};
ghost use Rattle.front_walk.specs.Asking.{AllMayAsk, AllStillAsk, HasFound, nodes_in};
ghost use Rattle.front_walk.specs.Nodes.{goes_and_passes, nodes_by, nodes_upto, roots, roots_upto};

use crate::children::children_in;
use crate::slice::Slice;
use crate::state_test::StateTest;
use crate::walk::{Stage, Walk};
use crate::walker::Walker;
use action_table::{Action, WantMemory};
use pareto_front::{Node, PackedNode, prune_lists};
use std::alloc::Global;
use std::thread::Threads;
use worker_gate::{Crew, Gate};

// A node has several children, each of which takes some 72 bytes until they are pruned. So a large level is expanded in
// this many slices at most, and only the children of one of them lie in memory.
const SLICES: usize = 8;

// No slice but the last is shorter, since what is kept is pruned again with each.
const SLICE: usize = 65536;

/// The children of the nodes of a level that go on and pass, and that no other of them covers, in order.
pub(crate) fn expand<T: StateTest, R: Threads + Sync, G: Gate>(
    crew: &mut Crew<'_, R, G, Walker<T::Asker>>,
    alloc: Global,
    stage: &Stage<'_, T>,
) -> Result<Vec<PackedNode>, WantMemory>
    requires askers { AllMayAsk (T.may_ask stage.now.walk.now.test.now) crew.old.workers }
    ensures askers { AllMayAsk (T.may_ask stage.now.walk.now.test.now) crew.new.workers }
    ensures still { AllStillAsk T.still_asks crew.old.workers crew.new.workers }
    ensures kept { let w = stage.now.walk.now in IfOk result (λ v. v.items
        ≡ uncovered (nodes_by w.g.now (goes_and_passes w.g.now (T.passes w.test.now) stage.now.left) stage.now.nodes.now)) }
{
    let span = stage.nodes.len().div_ceil(SLICES).max(SLICE);
    expand_by(crew, alloc, stage, span)
}

/// The same, of so many nodes at a time, 1 or more.
pub(crate) fn expand_by<T: StateTest, R: Threads + Sync, G: Gate>(
    crew: &mut Crew<'_, R, G, Walker<T::Asker>>,
    alloc: Global,
    stage: &Stage<'_, T>,
    span: usize,
) -> Result<Vec<PackedNode>, WantMemory>
    requires some { 1 ≤ span }
    requires askers { AllMayAsk (T.may_ask stage.now.walk.now.test.now) crew.old.workers }
    ensures askers { AllMayAsk (T.may_ask stage.now.walk.now.test.now) crew.new.workers }
    ensures still { AllStillAsk T.still_asks crew.old.workers crew.new.workers }
    ensures kept { let w = stage.now.walk.now in IfOk result (λ v. v.items
        ≡ uncovered (nodes_by w.g.now (goes_and_passes w.g.now (T.passes w.test.now) stage.now.left) stage.now.nodes.now)) }
{
    let len = stage.nodes.len();
    let mut kept = Vec::new(alloc);
    let mut from = 0;
    while from < len {
        let to = from + span.min(len - from);
        kept = expand_slice(crew, alloc, stage, &Slice { from, to }, &kept)?;
        from = to;
    }
    Ok(kept)
}

// Of the children of the nodes before the end of a slice those that no other of them covers, where those of the nodes
// before the slice are pruned already.
fn expand_slice<T: StateTest, R: Threads + Sync, G: Gate>(
    crew: &mut Crew<'_, R, G, Walker<T::Asker>>,
    alloc: Global,
    stage: &Stage<'_, T>,
    slice: &Slice,
    earlier: &[PackedNode],
) -> Result<Vec<PackedNode>, WantMemory>
    requires askers { AllMayAsk (T.may_ask stage.now.walk.now.test.now) crew.old.workers }
    requires inside { slice.now.to ≤ length stage.now.nodes.now }
    requires pruned { let w = stage.now.walk.now in let test = goes_and_passes w.g.now (T.passes w.test.now) stage.now.left in
        earlier.now ≡ uncovered (nodes_upto w.g.now test stage.now.nodes.now slice.now.from) }
    ensures askers { AllMayAsk (T.may_ask stage.now.walk.now.test.now) crew.new.workers }
    ensures still { AllStillAsk T.still_asks crew.old.workers crew.new.workers }
    ensures kept { let w = stage.now.walk.now in let test = goes_and_passes w.g.now (T.passes w.test.now) stage.now.left in
        IfOk result (λ v. v.items ≡ uncovered (nodes_upto w.g.now test stage.now.nodes.now slice.now.to)) }
{
    expand_ranges(crew, alloc, stage, slice);
    let kept = prune_found(crew.rt(), alloc, earlier, crew.workers());
    let_go(crew, alloc);
    kept
}

// Of the kept nodes and of what the workers found the nodes that no other of them covers, in order.
fn prune_found<A>(
    rt: &(impl Threads + Sync),
    alloc: Global,
    earlier: &[PackedNode],
    walkers: &[Walker<A>],
) -> Result<Vec<PackedNode>, WantMemory>
    ensures kept { IfOk result (λ v. v.items ≡ uncovered (earlier.now ++ flat_map (λ w. nodes_in w.found) walkers.now)) }
    ensures whole { IfOk result (λ _. All (λ w. IsOk w.found) walkers.now) }
{
    let lists = lists_of(alloc, earlier, walkers)?;
    prune_lists(rt, alloc, &lists)
}

// Each worker lets go of what it found.
fn let_go<A: Send, R: Threads + Sync, G: Gate>(crew: &mut Crew<'_, R, G, Walker<A>>, alloc: Global)
    ensures as_many { length crew.new.workers ≡ length crew.old.workers }
    ensures asker { (k : ℕ) (d : _) → k < length crew.old.workers →
        (slice_index_or crew.new.workers k d).asker ≡ (slice_index_or crew.old.workers k d).asker }
{
    crew.each(|_k, walker: &mut Walker<A>| walker.let_go(alloc));
}

// Each worker expands its range of a slice.
fn expand_ranges<T: StateTest, R: Threads + Sync, G: Gate>(
    crew: &mut Crew<'_, R, G, Walker<T::Asker>>,
    alloc: Global,
    stage: &Stage<'_, T>,
    slice: &Slice,
)
    requires askers { AllMayAsk (T.may_ask stage.now.walk.now.test.now) crew.old.workers }
    requires inside { slice.now.to ≤ length stage.now.nodes.now }
    ensures as_many { length crew.new.workers ≡ length crew.old.workers }
    ensures found { let w = stage.now.walk.now in let test = goes_and_passes w.g.now (T.passes w.test.now) stage.now.left in
        let from = slice.now.from in let len = slice.now.to - from in let count = length crew.old.workers in
        (k : ℕ) (d : _) → k < count → HasFound (T.may_ask w.test.now) T.still_asks
        (nodes_upto w.g.now test stage.now.nodes.now (from + cut len count k))
        (nodes_upto w.g.now test stage.now.nodes.now (from + cut len count (k + 1)))
        (slice_index_or crew.old.workers k d) (slice_index_or crew.new.workers k d) }
{
    let count = crew.len();
    crew.each(
        |k, walker: &mut Walker<T::Asker>|
            requires { (1 ≤ count) × (count ≤ 64) × (k < count) × (slice.now.to ≤ length stage.now.nodes.now)
                × T.may_ask stage.now.walk.now.test.now walker.now.asker }
        { expand_range(alloc, stage, &slice.part(count, k), walker) },
    );
}

// A worker expands a slice.
fn expand_range<T: StateTest>(
    alloc: Global,
    stage: &Stage<'_, T>,
    slice: &Slice,
    walker: &mut Walker<T::Asker>,
)
    requires inside { slice.now.to ≤ length stage.now.nodes.now }
    requires asker { T.may_ask stage.now.walk.now.test.now walker.old.asker }
    ensures { let w = stage.now.walk.now in let test = goes_and_passes w.g.now (T.passes w.test.now) stage.now.left in
        HasFound (T.may_ask w.test.now) T.still_asks
        (nodes_upto w.g.now test stage.now.nodes.now slice.now.from) (nodes_upto w.g.now test stage.now.nodes.now slice.now.to)
        walker.old walker.new }
{
    walker.found = children_in(alloc, stage, slice.from, slice.to, &mut walker.asker);
}

/// No action yet, where the state that is walked from passes.
pub(crate) fn first_level<T: StateTest, R: Threads + Sync, G: Gate>(
    crew: &mut Crew<'_, R, G, Walker<T::Asker>>,
    alloc: Global,
    walk: &Walk<'_, T>,
    n: u32,
) -> Result<Vec<PackedNode>, WantMemory>
    requires askers { AllMayAsk (T.may_ask walk.now.test.now) crew.old.workers }
    ensures askers { AllMayAsk (T.may_ask walk.now.test.now) crew.new.workers }
    ensures still { AllStillAsk T.still_asks crew.old.workers crew.new.workers }
    ensures nodes { IfOk result (λ v. v.items ≡ roots walk.now.from.now (T.passes walk.now.test.now) n) }
{
    ask_first(crew, alloc, walk, n);
    gather(alloc, crew.workers())
}

// The first worker asks for the state that is walked from.
fn ask_first<T: StateTest, R: Threads + Sync, G: Gate>(
    crew: &mut Crew<'_, R, G, Walker<T::Asker>>,
    alloc: Global,
    walk: &Walk<'_, T>,
    n: u32,
)
    requires askers { AllMayAsk (T.may_ask walk.now.test.now) crew.old.workers }
    ensures as_many { length crew.new.workers ≡ length crew.old.workers }
    ensures found { let w = walk.now in
        (k : ℕ) (d : _) → k < length crew.old.workers → HasFound (T.may_ask w.test.now) T.still_asks
        (roots_upto w.from.now (T.passes w.test.now) n k) (roots_upto w.from.now (T.passes w.test.now) n (k + 1))
        (slice_index_or crew.old.workers k d) (slice_index_or crew.new.workers k d) }
{
    crew.each(
        |k, walker: &mut Walker<T::Asker>|
            requires { T.may_ask walk.now.test.now walker.now.asker }
        { ask_root(alloc, walk, n, k, walker) },
    );
}

// Worker 0 finds the state that is walked from, where it passes, and each other worker nothing.
#[tactic(auto, unfolding(crate::specs::Nodes::roots_upto))]
fn ask_root<T: StateTest>(
    alloc: Global,
    walk: &Walk<'_, T>,
    n: u32,
    k: u32,
    walker: &mut Walker<T::Asker>,
)
    requires asker { T.may_ask walk.now.test.now walker.old.asker }
    ensures { let w = walk.now in HasFound (T.may_ask w.test.now) T.still_asks
        (roots_upto w.from.now (T.passes w.test.now) n k) (roots_upto w.from.now (T.passes w.test.now) n (k + 1)) walker.old walker.new }
{
    walker.found = if k == 0 {
        root(alloc, walk, n, &mut walker.asker)
    } else {
        Ok(Vec::new(alloc))
    };
}

// The state that is walked from, where it passes.
#[tactic(auto, unfolding(crate::specs::Nodes::roots))]
fn root<T: StateTest>(
    alloc: Global,
    walk: &Walk<'_, T>,
    n: u32,
    asker: &mut T::Asker,
) -> Result<Vec<PackedNode>, WantMemory>
    requires asker { T.may_ask walk.now.test.now asker.old }
    ensures asker { T.may_ask walk.now.test.now asker.new }
    ensures still { T.still_asks asker.old asker.new }
    ensures nodes { IfOk result (λ v. v.items ≡ roots walk.now.from.now (T.passes walk.now.test.now) n) }
{
    let mut nodes = Vec::new(alloc);
    if walk.test.passes(asker, n, walk.from) {
        nodes.push(PackedNode::of(&Node {
            state: *walk.from,
            seconds: 0,
            parent: 0,
            action: Action::BasicSynthesis,
        }))?;
    }
    Ok(nodes)
}

// What the workers found, one after another.
fn gather<A>(alloc: Global, walkers: &[Walker<A>]) -> Result<Vec<PackedNode>, WantMemory>
    ensures nodes { IfOk result (λ v. v.items ≡ flat_map (λ w. nodes_in w.found) walkers.now) }
    ensures whole { IfOk result (λ _. All (λ w. IsOk w.found) walkers.now) }
{
    let lists = lists_of(alloc, &[], walkers)?;
    join(alloc, &lists)
}

// The lists, one after another.
fn join(alloc: Global, lists: &[&[PackedNode]]) -> Result<Vec<PackedNode>, WantMemory>
    ensures { IfOk result (λ v. v.items ≡ nodes_of lists.now) }
{
    let mut nodes = Vec::new(alloc);
    for list in lists {
        nodes.extend_from_slice(list)?;
    }
    Ok(nodes)
}

// A list, and behind it the lists that the workers found, as they are.
fn lists_of<'a, A>(
    alloc: Global,
    first: &'a [PackedNode],
    walkers: &'a [Walker<A>],
) -> Result<Vec<&'a [PackedNode]>, WantMemory>
    ensures nodes { IfOk result (λ lists. nodes_of lists.items ≡ first.now ++ flat_map (λ w. nodes_in w.found) walkers.now) }
    ensures whole { IfOk result (λ _. All (λ w. IsOk w.found) walkers.now) }
{
    let mut lists = Vec::new(alloc);
    lists.push(first)?;
    for walker in walkers {
        match &walker.found {
            Ok(found) => lists.push(found.as_slice())?,
            Err(_) => return Err(WantMemory),
        }
    }
    Ok(lists)
}
