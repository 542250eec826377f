// The columns of a graph for the budgets below a number: a column has the words of one budget and one node, in the
// order of the needs. The columns of nodes that stand in turn lie in pieces, so that workers can make them on their own.
ghost use Rattle.std.specs.Prelude.{◌≡◌, ℕ, ◌+◌, ◌*◌, ◌/◌, ◌%◌, ◌^◌, ◌<◌, ◌≤◌, ◌==◌, if◌then◌else◌, length, slice_index, IfOk, OnOk, OnErr};
ghost use Rattle.walk_table.specs.Graph.{edge_at, first_of, IsGraph};
ghost use Rattle.walk_table.specs.Pieces.{pieces_of, piece_nodes, AreColumns, ArePieces, IsPart, IsPiece, IsNear, IsReady};
ghost use Rattle.walk_table.specs.Tops.{IsColumn, IsColumnBefore};

use crate::graph::Graph;
use crate::kernels::raise;
use std::alloc::{AllocError, Global};
use std::marker::Model;

// The columns of how many nodes stand in a piece.
const PIECE_NODES: usize = 64;

// A graph with the columns of the budgets below a number.
#[derive(Drop)]
pub(crate) struct Filled {
    graph: Graph,
    needs: usize,
    budgets: usize,
    pieces: Vec<Vec<u16>>,
}

impl Model for Filled {
    ghost use Rattle.walk_table.specs.Pieces.{FilledFields, IsFilled};

    ghost Value = { FilledFields };

    ghost view = { λ s. record { graph = s.graph; needs = s.needs; budgets = s.budgets } };

    ghost invariant = { λ s. IsFilled s.graph s.needs s.budgets s.pieces.items };
}

// How many pieces a budget has.
fn count_pieces(nodes: usize) -> usize
    ensures { result ≡ pieces_of nodes }
{
    nodes.div_ceil(PIECE_NODES)
}

// The column of the empty walk.
fn begin(out: &mut [u16])
    requires { 0 < length out.old }
    ensures { (need : ℕ) → need < length out.old → slice_index out.new need ≡ (if need == 0 then 1 else 0) }
{
    out.fill(0);
    out[0] = 1;
}

impl Filled {
    // A graph with no columns yet.
    pub(crate) fn new(alloc: Global, graph: Graph, needs: usize) -> Filled
        requires some { 0 < needs }
        requires fits { graph.nodes * needs < 2 ^ 64 }
        ensures graph { result.graph ≡ graph }
        ensures needs { result.needs ≡ needs }
        ensures budgets { result.budgets ≡ 0 }
    {
        Filled {
            graph,
            needs,
            budgets: 0,
            pieces: Vec::new(alloc),
        }
    }

    pub(crate) fn graph(&self) -> &Graph
        ensures { result.now ≡ self.now.graph }
    {
        &self.graph
    }

    pub(crate) fn budgets(&self) -> usize
        ensures { result ≡ self.now.budgets }
    {
        self.budgets
    }

    // How many pieces the budgets below a number have.
    pub(crate) fn places_below(&self, budget: usize) -> usize
        requires { budget * self.now.graph.nodes < 2 ^ 64 }
        ensures { result ≡ budget * pieces_of self.now.graph.nodes }
    {
        budget * count_pieces(self.graph.nodes())
    }

    // The piece in which the column of a budget and a node stands.
    fn part(&self, budget: usize, node: usize) -> &[u16]
        requires budget { budget < self.now.budgets }
        requires node { node < self.now.graph.nodes }
        ensures part { IsPart self.now.graph self.now.needs budget (node / piece_nodes) result.now }
        ensures graph { IsGraph self.now.graph }
        ensures within { node % piece_nodes * self.now.needs + self.now.needs ≤ length result.now }
    {
        let place = budget * count_pieces(self.graph.nodes()) + node / PIECE_NODES;
        self.pieces[place].as_slice()
    }

    // The column of a budget and a node.
    pub(crate) fn column(&self, budget: usize, node: usize) -> &[u16]
        requires budget { budget < self.now.budgets }
        requires node { node < self.now.graph.nodes }
        ensures long { length result.now ≡ self.now.needs }
        ensures graph { IsGraph self.now.graph }
        ensures right { IsColumn self.now.graph budget node result.now }
    {
        let part = self.part(budget, node);
        let at = node % PIECE_NODES * self.needs;
        &part[at..at + self.needs]
    }

    // Takes in the walks that begin with the edge at place `k`.
    fn take_in(&self, budget: usize, k: usize, out: &mut [u16])
        requires long { length out.old ≡ self.now.needs }
        requires edge { k < length self.now.graph.edges }
        requires near { budget < self.now.budgets + (edge_at self.now.graph k).cost }
        ensures { (node : ℕ) → first_of self.now.graph node ≤ k → k < first_of self.now.graph (node + 1)
            → IsColumnBefore self.now.graph budget node k out.old → IsColumnBefore self.now.graph budget node (k + 1) out.new }
    {
        let edge = self.graph.edge(k);
        let cost = edge.cost as usize;
        if cost <= budget {
            let source = self.column(budget - cost, edge.to as usize);
            raise(out, source, edge.shift as usize, edge.gain);
        }
    }

    // Fills the column of a budget and a node.
    fn fill_column(&self, budget: usize, node: usize, out: &mut [u16])
        requires node { node < self.now.graph.nodes }
        requires some { 0 < self.now.needs }
        requires long { length out.old ≡ self.now.needs }
        requires near { IsNear self.now.graph self.now.budgets (budget + 1) }
        ensures { IsColumn self.now.graph budget node out.new }
    {
        begin(out);
        let (from, to) = self.graph.places_of(node);
        for k in from..to {
            self.take_in(budget, k, out);
        }
    }

    // Fills the columns of a budget from a node on.
    fn fill_columns(&self, budget: usize, first: usize, run: &mut [u16])
        requires whole { length run.old % self.now.needs ≡ 0 }
        requires nodes { first + length run.old / self.now.needs ≤ self.now.graph.nodes }
        requires near { IsNear self.now.graph self.now.budgets (budget + 1) }
        ensures { AreColumns self.now.graph budget first self.now.needs run.new }
    {
        for j in 0..run.len() / self.needs {
            let at = j * self.needs;
            self.fill_column(budget, first + j, &mut run[at..at + self.needs]);
        }
    }

    // The piece at a place, which the worker that calls this makes whole: it sets it to zeros, and fills it.
    pub(crate) fn piece(&self, alloc: Global, place: usize) -> Result<Vec<u16>, AllocError>
        requires { IsReady self.now.graph self.now.budgets place }
        ensures { IfOk result (λ v. IsPiece self.now.graph self.now.needs place v.items) }
    {
        let nodes = self.graph.nodes();
        let count = count_pieces(nodes);
        let first = place % count * PIECE_NODES;
        let columns = (nodes - first).min(PIECE_NODES);
        let mut words = vec![in alloc; 0u16; columns * self.needs]?;
        self.fill_columns(place / count, first, words.as_mut_slice());
        Ok(words)
    }

    // Takes the pieces of more budgets.
    pub(crate) fn append(&mut self, end: usize, mut block: Vec<Vec<u16>>) -> Result<(), AllocError>
        requires long { self.old.budgets * pieces_of self.old.graph.nodes + length block.items ≡ end * pieces_of self.old.graph.nodes }
        requires pieces { ArePieces self.old.graph self.old.needs (self.old.budgets * pieces_of self.old.graph.nodes) block.items }
        ensures ok { OnOk result (self.new.budgets ≡ end) }
        ensures err { OnErr result (self.new.budgets ≡ self.old.budgets) }
        ensures graph { self.new.graph ≡ self.old.graph }
        ensures needs { self.new.needs ≡ self.old.needs }
    {
        self.pieces.append(&mut block)?;
        self.budgets = end;
        Ok(())
    }
}
