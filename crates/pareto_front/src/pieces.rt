// A level that stands in several lists, cut into pieces.
ghost use Rattle.std.specs.Prelude.{◌≡◌, ◌++◌, ◌+◌, IfOk, OnOk, length};
ghost use Rattle.pareto_front.specs.Pieces.{Follow, nodes_in, nodes_of};

use crate::compact::PackedNode;
use crate::piece::Piece;
use action_table::WantMemory;
use std::alloc::Global;

// How many nodes a piece has at most.
const PIECE: usize = 65536;

/// A level in pieces, and how many nodes it has.
#[derive(Drop)]
pub(crate) struct Cut<'a> {
    pub pieces: Vec<Piece<'a>>,
    pub len: usize,
}

/// The lists of a level, one after another, cut into pieces. There is no memory for more nodes than a place can tell.
pub(crate) fn pieces_of<'a>(
    alloc: Global,
    lists: &[&'a [PackedNode]],
) -> Result<Cut<'a>, WantMemory>
    ensures nodes { IfOk result (λ cut. nodes_in cut.pieces.items ≡ nodes_of lists.now) }
    ensures order { IfOk result (λ cut. Follow 0 cut.pieces.items) }
    ensures len { IfOk result (λ cut. cut.len ≡ length (nodes_in cut.pieces.items)) }
{
    let mut pieces = Vec::new(alloc);
    let mut len = 0;
    for list in lists {
        len = push_pieces(&mut pieces, len, list)?;
    }
    Ok(Cut { pieces, len })
}

// Appends the pieces of a list that begins at a place, and answers where it ends.
fn push_pieces<'a>(
    pieces: &mut Vec<Piece<'a>>,
    start: usize,
    list: &'a [PackedNode],
) -> Result<usize, WantMemory>
    requires order { Follow 0 pieces.old.items }
    requires start { start ≡ length (nodes_in pieces.old.items) }
    ensures order { OnOk result (Follow 0 pieces.new.items) }
    ensures nodes { OnOk result (nodes_in pieces.new.items ≡ nodes_in pieces.old.items ++ list.now) }
    ensures end { IfOk result (λ end. end ≡ start + length list.now) }
{
    let Some(end) = start.checked_add(list.len()) else {
        return Err(WantMemory);
    };
    let mut rest = list;
    let mut place = start;
    while rest.len() > PIECE {
        let (nodes, others) = rest.split_at(PIECE);
        pieces.push(Piece {
            start: place,
            nodes,
        })?;
        place += PIECE;
        rest = others;
    }
    pieces.push(Piece {
        start: place,
        nodes: rest,
    })?;
    Ok(end)
}
