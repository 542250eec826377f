// The nodes of a level whose places are marked.
ghost use Rattle.std.specs.Prelude.{◌≡◌, ◌++◌, ◌∷◌, [], false, if◌then◌else◌, IfOk, OnOk, slice_index_or};
ghost use Rattle.std.specs.List.{AllZip, flat_map};
ghost use Rattle.pareto_front.specs.Lists.{items_of};
ghost use Rattle.pareto_front.specs.Parts.{AreMarked, AreMarks, marked_from, marked_of};
ghost use Rattle.pareto_front.specs.Pieces.{Follow, nodes_in};

use crate::compact::PackedNode;
use crate::piece::Piece;
use crate::pieces::Cut;
use action_table::WantMemory;
use rayon::prelude::*;
use std::alloc::{AllocError, Global};
use std::thread::Threads;

/// For each place, whether it is among those that are kept.
pub(crate) fn marks_of(
    alloc: Global,
    count: usize,
    kept: &[Vec<usize>],
) -> Result<Vec<bool>, WantMemory>
    ensures { IfOk result (λ marks. AreMarks count (items_of kept.now) marks.items) }
{
    let mut marks = vec![in alloc; false; count]?;
    for places in kept {
        mark(&mut marks, places);
    }
    Ok(marks)
}

// Marks places.
fn mark(marks: &mut [bool], places: &[usize])
    ensures { AreMarked places.now marks.old marks.new }
{
    for place in places {
        if *place < marks.len() {
            marks[*place] = true;
        }
    }
}

/// The marked nodes of a level, in order, from as many threads as there are processors.
pub(crate) fn keep_marked(
    rt: &(impl Threads + Sync),
    alloc: Global,
    level: &Cut<'_>,
    marks: &[bool],
) -> Result<Vec<PackedNode>, WantMemory>
    requires { Follow 0 level.now.pieces.items }
    ensures { IfOk result (λ kept. kept.items ≡ marked_of marks.now (nodes_in level.now.pieces.items)) }
{
    let found = marked_in_all(rt, alloc, &level.pieces, marks)??;
    join_lists(alloc, &found)
}

// The lists, one after another.
fn join_lists(alloc: Global, lists: &[Vec<PackedNode>]) -> Result<Vec<PackedNode>, WantMemory>
    ensures { IfOk result (λ nodes. nodes.items ≡ flat_map (λ list. list.items) lists.now) }
{
    let mut nodes = Vec::new(alloc);
    for list in lists {
        nodes.extend_from_slice(list)?;
    }
    Ok(nodes)
}

// The marked nodes of each piece.
fn marked_in_all(
    rt: &(impl Threads + Sync),
    alloc: Global,
    pieces: &[Piece<'_>],
    marks: &[bool],
) -> Result<Result<Vec<Vec<PackedNode>>, WantMemory>, AllocError>
    ensures { IfOk result (λ all. IfOk all (λ found.
        AllZip (λ piece nodes. nodes.items ≡ marked_from piece.start marks.now piece.nodes.now) pieces.now found.items)) }
{
    pieces
        .par_iter()
        .with_min_len(1)
        .map(
            |piece: &Piece<'_>| -> Result<Vec<PackedNode>, WantMemory>
                ensures { IfOk result (λ nodes. nodes.items ≡ marked_from piece.now.start marks.entry.now piece.now.nodes.now) }
            { marked_in(alloc, piece, marks) },
        )
        .collect(rt, alloc)
}

// The marked nodes of a piece.
fn marked_in(
    alloc: Global,
    piece: &Piece<'_>,
    marks: &[bool],
) -> Result<Vec<PackedNode>, WantMemory>
    ensures { IfOk result (λ nodes. nodes.items ≡ marked_from piece.now.start marks.now piece.now.nodes.now) }
{
    let mut nodes = Vec::new(alloc);
    for k in 0..piece.nodes.len() {
        let mark = is_marked(marks, piece.start + k);
        push_marked(&mut nodes, mark, &piece.nodes[k])?;
    }
    Ok(nodes)
}

// Appends a node that is marked.
fn push_marked(nodes: &mut Vec<PackedNode>, mark: bool, node: &PackedNode) -> Result<(), WantMemory>
    ensures { OnOk result (nodes.new.items ≡ nodes.old.items ++ (if mark then node.now ∷ [] else [])) }
{
    if mark {
        nodes.push(*node)?;
    }
    Ok(())
}

// Whether a place is marked.
fn is_marked(marks: &[bool], place: usize) -> bool
    ensures { result ≡ slice_index_or marks.now place false }
{
    if place < marks.len() {
        marks[place]
    } else {
        false
    }
}
