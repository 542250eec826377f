ghost use Rattle.std.specs.Prelude.{ℕ, ◌≡◌, ◌<◌, ◌≤◌, ◌+◌, ◌/◌, IfOk, length, OnOk, [], ◌++◌, ◌∷◌, slice_index_or, slice_set};
ghost use Rattle.std.specs.List.{AllZip};
ghost use Rattle.craft_state.specs.Craft.{AreEffects};
ghost use Rattle.pareto_front.specs.Lists.{items_of};
ghost use Rattle.pareto_front.specs.Parts.{IsRun, entry_of, joined, part_count, part_of, runs_of};

use crate::compact::PackedNode;
use crate::key::key_of;
use crate::numbers::Numbers;
use crate::piece::Piece;
use action_table::WantMemory;
use rayon::prelude::*;
use std::alloc::{AllocError, Global};
use std::thread::Threads;

/// What a node is compared by, and its place in the level.
#[derive(Clone, Copy)]
pub(crate) struct Entry {
    pub key: u64,
    pub place: usize,
    pub seconds: u32,
    pub numbers: Numbers,
}

// How many nodes there are for each part. The entries of a part then fit a processor's own cache.
const PART: usize = 16384;

// An odd number whose products spread keys that differ in a few bits.
const SPREAD: u64 = 0x9E37_79B9_7F4A_7C15;

/// How many parts a level of so many nodes has.
pub(crate) fn part_count(len: usize) -> usize
    ensures { result ≡ part_count len }
{
    len / PART + 1
}

/// The entries of the pieces of a level of so many nodes, each in the parts of the level, from as many threads as there
/// are processors. All entries with one key are in one part.
pub(crate) fn divide(
    rt: &(impl Threads + Sync),
    alloc: Global,
    pieces: &[Piece<'_>],
    len: usize,
) -> Result<Result<Vec<Vec<Vec<Entry>>>, WantMemory>, AllocError>
    ensures { IfOk result (λ divided. IfOk divided (λ runs.
        AllZip (λ piece run. IsRun (part_count len) piece (items_of run.items)) pieces.now runs.items)) }
{
    pieces
        .par_iter()
        .with_min_len(1)
        .map(
            |piece: &Piece<'_>| -> Result<Vec<Vec<Entry>>, WantMemory>
                ensures { IfOk result (λ run. IsRun (part_count len) piece.now (items_of run.items)) }
            { divide_piece(alloc, piece, len) },
        )
        .collect(rt, alloc)
}

// The entries of a piece in the parts of a level of so many nodes.
fn divide_piece(alloc: Global, piece: &Piece<'_>, len: usize) -> Result<Vec<Vec<Entry>>, WantMemory>
    ensures { IfOk result (λ run. IsRun (part_count len) piece.now (items_of run.items)) }
{
    let count = part_count(len);
    let mut parts = empty_parts(alloc, count, room(piece.nodes.len(), count))?;
    for k in 0..piece.nodes.len() {
        let entry = entry_of(piece.start + k, &piece.nodes[k]);
        push_to(&mut parts, part_of(entry.key, count), entry)?;
    }
    Ok(parts)
}

// Room for what each of so many parts has of a piece, as long as the keys are spread well.
fn room(len: usize, count: usize) -> usize
    requires { 0 < count }
{
    let share = len / count;
    share.saturating_add(share / 8 + 1)
}

/// A part of a level: what the runs have of it, one after another.
pub(crate) fn join(
    alloc: Global,
    runs: &[Vec<Vec<Entry>>],
    part: usize,
) -> Result<Vec<Entry>, WantMemory>
    ensures { IfOk result (λ entries. entries.items ≡ joined (runs_of runs.now) part) }
{
    let mut entries = Vec::new(alloc);
    for run in runs {
        if let Some(found) = run.get(part) {
            entries.extend_from_slice(found)?;
        }
    }
    Ok(entries)
}

// Empty parts with room for so many entries each.
fn empty_parts(alloc: Global, count: usize, room: usize) -> Result<Vec<Vec<Entry>>, WantMemory>
    ensures many { IfOk result (λ parts. length parts.items ≡ count) }
    ensures empty { IfOk result (λ parts. (g : ℕ) → slice_index_or (items_of parts.items) g [] ≡ []) }
{
    let mut parts = Vec::with_capacity(alloc, count)?;
    for _part in 0..count {
        parts.push(Vec::with_capacity(alloc, room)?)?;
    }
    Ok(parts)
}

// Appends to a part.
fn push_to(parts: &mut Vec<Vec<Entry>>, index: usize, entry: Entry) -> Result<(), WantMemory>
    requires { index < length parts.old.items }
    ensures { OnOk result (items_of parts.new.items ≡ slice_set (items_of parts.old.items) index
        (slice_index_or (items_of parts.old.items) index [] ++ entry ∷ [])) }
{
    parts[index].push(entry)?;
    Ok(())
}

// The part of a key.
#[tactic(auto, unfolding(crate::specs::Parts::part_of))]
fn part_of(key: u64, count: usize) -> usize
    requires { 0 < count }
    ensures part { result ≡ part_of key count }
    ensures inside { result < count }
{
    (key.wrapping_mul(SPREAD) >> 32) as usize % count
}

// What a node at a place is compared by.
fn entry_of(place: usize, node: &PackedNode) -> Entry
    ensures value { result ≡ entry_of place node.now }
    ensures bounds { AreEffects node.now.state.effects }
{
    let node = node.node();
    Entry {
        key: key_of(&node.state),
        place,
        seconds: node.seconds,
        numbers: Numbers::of(&node.state),
    }
}
