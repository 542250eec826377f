// The filling by workers, block by block. No column of a block needs another one of it.
ghost use Rattle.std.specs.Prelude.{◌≡◌, ℕ, ◌+◌, ◌-◌, ◌*◌, ◌/◌, ◌%◌, ◌^◌, ◌<◌, ◌≤◌, ⊤, None, MatchOption, length, IfOk, OnOk};
ghost use Rattle.walk_table.specs.Graph.{edge_at, GraphFields};
ghost use Rattle.walk_table.specs.Made.{AreMade, AreMadeEach, ArePlaced};
ghost use Rattle.walk_table.specs.Pieces.{pieces_of, ArePieces, AreSlots, IsNear, IsPiece, IsReady};

use crate::graph::Graph;
use crate::pieces::Filled;
use std::alloc::{AllocError, Global};
use std::sync::atomic::{AtomicUsize, Ordering};
use std::thread;
use std::thread::Threads;

// A piece that a worker made, and its place.
#[derive(Drop)]
struct Made {
    place: usize,
    words: Vec<u16>,
}

// The least cost of an edge, and at most `most`.
fn least_cost(graph: &Graph, most: usize) -> usize
    requires { 1 ≤ most }
    ensures low { 1 ≤ result }
    ensures high { result ≤ most }
    ensures each { (k : ℕ) → k < length graph.now.edges → result ≤ (edge_at graph.now k).cost }
{
    let mut least = most;
    for k in 0..graph.len() {
        least = least.min(graph.edge(k).cost as usize);
    }
    least
}

// Makes the pieces that `next` deals out to this worker, until all of the block have been dealt. Where a processor is
// slow its worker makes fewer. What is dealt is only a hint: no clause rests on it.
fn make_some(
    filled: &Filled,
    alloc: Global,
    next: &AtomicUsize,
    from: usize,
    to: usize,
) -> Result<Vec<Made>, AllocError>
    requires { (place : ℕ) → place < to → IsReady filled.now.graph filled.now.budgets place }
    ensures { IfOk result (λ made. AreMade filled.now.graph filled.now.needs from to made.items) }
{
    let mut made = Vec::new(alloc);
    for _ in from..to {
        let place = next.fetch_add(1, Ordering::SeqCst);
        if place < from || to <= place {
            break;
        }
        let words = filled.piece(alloc, place)?;
        made.push(Made { place, words })?;
    }
    Ok(made)
}

// So many places with no piece.
fn no_pieces(alloc: Global, count: usize) -> Result<Vec<Option<Vec<u16>>>, AllocError>
    ensures len { IfOk result (λ v. length v.items ≡ count) }
    ensures none { IfOk result (λ v. (g : GraphFields) (needs first : ℕ) → AreSlots g needs first v.items) }
{
    let mut slots = Vec::with_capacity(alloc, count)?;
    for _ in 0..count {
        slots.push(None)?;
    }
    Ok(slots)
}

// What all workers made, in one list.
fn gather(
    alloc: Global,
    mut parts: Vec<Result<Vec<Made>, AllocError>>,
) -> Result<Vec<Made>, AllocError>
    ensures { IfOk result (λ all. (g : GraphFields) (needs from to : ℕ)
        → AreMadeEach g needs from to parts.items → AreMade g needs from to all.items) }
{
    let mut all = Vec::new(alloc);
    while let Some(part) = parts.pop() {
        let mut made = part?;
        all.append(&mut made)?;
    }
    Ok(all)
}

// The pieces at the places from a first one on and below an end, in their order.
fn arrange(
    alloc: Global,
    from: usize,
    to: usize,
    mut made: Vec<Made>,
) -> Result<Vec<Option<Vec<u16>>>, AllocError>
    requires order { from ≤ to }
    requires placed { ArePlaced from to made.items }
    ensures len { IfOk result (λ v. length v.items ≡ to - from) }
    ensures slots { IfOk result (λ v. (g : GraphFields) (needs : ℕ) → AreMade g needs from to made.items → AreSlots g needs from v.items) }
{
    let mut slots = no_pieces(alloc, to - from)?;
    while let Some(piece) = made.pop() {
        let Made { place, words } = piece;
        slots[place - from] = Some(words);
    }
    Ok(slots)
}

// What a worker made, or else the piece made now.
fn take_or_make(
    filled: &Filled,
    alloc: Global,
    place: usize,
    slot: &mut Option<Vec<u16>>,
) -> Result<Vec<u16>, AllocError>
    requires ready { IsReady filled.now.graph filled.now.budgets place }
    requires slot { MatchOption slot.old ⊤ (λ v. IsPiece filled.now.graph filled.now.needs place v.items) }
    ensures piece { IfOk result (λ v. IsPiece filled.now.graph filled.now.needs place v.items) }
    ensures slot { slot.new ≡ None }
{
    match slot.take() {
        Some(words) => Ok(words),
        None => filled.piece(alloc, place),
    }
}

// All pieces of a block. Workers leave none out, but no clause needs that.
fn complete(
    filled: &Filled,
    alloc: Global,
    from: usize,
    slots: &mut [Option<Vec<u16>>],
) -> Result<Vec<Vec<u16>>, AllocError>
    requires ready { (place : ℕ) → place < from + length slots.old → IsReady filled.now.graph filled.now.budgets place }
    requires fits { from + length slots.old < 2 ^ 64 }
    requires slots { AreSlots filled.now.graph filled.now.needs from slots.old }
    ensures len { IfOk result (λ v. length v.items ≡ length slots.old) }
    ensures pieces { IfOk result (λ v. ArePieces filled.now.graph filled.now.needs from v.items) }
{
    let mut block = Vec::with_capacity(alloc, slots.len())?;
    for k in 0..slots.len() {
        let words = take_or_make(filled, alloc, from + k, &mut slots[k])?;
        block.push(words)?;
    }
    Ok(block)
}

// The pieces of the budgets that aren't filled yet and are below `end`, by so many workers side by side.
fn make_block(
    rt: &(impl Threads + Sync),
    alloc: Global,
    filled: &Filled,
    end: usize,
    workers: usize,
) -> Result<Vec<Vec<u16>>, AllocError>
    requires later { filled.now.budgets ≤ end }
    requires near { IsNear filled.now.graph filled.now.budgets end }
    requires fits { end * filled.now.graph.nodes < 2 ^ 64 }
    ensures len { IfOk result (λ v.
        filled.now.budgets * pieces_of filled.now.graph.nodes + length v.items ≡ end * pieces_of filled.now.graph.nodes) }
    ensures pieces { IfOk result (λ v.
        ArePieces filled.now.graph filled.now.needs (filled.now.budgets * pieces_of filled.now.graph.nodes) v.items) }
{
    let from = filled.places_below(filled.budgets());
    let to = filled.places_below(end);
    let next = AtomicUsize::new(from);
    let work = |_worker: usize| -> Result<Vec<Made>, AllocError>
        requires { (place : ℕ) → place < to → IsReady filled.now.graph filled.now.budgets place }
        ensures { IfOk result (λ made. AreMade filled.entry.now.graph filled.entry.now.needs from to made.items) }
    { make_some(filled, alloc, &next, from, to) };
    let parts = thread::map_indices(rt, alloc, workers.min(to - from), &work)?;
    let mut slots = arrange(alloc, from, to, gather(alloc, parts)?)?;
    complete(filled, alloc, from, slots.as_mut_slice())
}

// Fills all budgets up to `top`.
pub(crate) fn fill_all(
    rt: &(impl Threads + Sync),
    alloc: Global,
    filled: &mut Filled,
    top: usize,
    workers: usize,
) -> Result<(), AllocError>
    requires first { filled.old.budgets ≡ 0 }
    requires needs { 0 < filled.old.needs }
    requires top { top < 2 ^ 32 }
    requires fits { (top + 1) * (filled.old.graph.nodes * filled.old.needs) < 2 ^ 64 }
    ensures done { OnOk result (filled.new.budgets ≡ top + 1) }
    ensures graph { filled.new.graph ≡ filled.old.graph }
    ensures needs { filled.new.needs ≡ filled.old.needs }
{
    let least = least_cost(filled.graph(), top + 1);
    while filled.budgets() <= top {
        let end = (filled.budgets() + least).min(top + 1);
        let block = make_block(rt, alloc, filled, end, workers)?;
        filled.append(end, block)?;
    }
    Ok(())
}
