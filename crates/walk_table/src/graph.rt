// Graphs whose edges have a cost, a gain and a shift.
ghost use Rattle.std.specs.Prelude.{◌≡◌, ℕ, ◌+◌, ◌<◌, ◌≤◌, ◌++◌, ◌∷◌, [], length, OnOk, OnErr};

use std::alloc::{AllocError, Global};
use std::marker::Model;

/// An edge, beside the node that it comes from.
#[derive(Clone, Copy, Debug, PartialEq, Eq)]
pub struct Edge {
    /// What it takes of a budget, 1 at least.
    pub cost: u32,
    /// What it gains, 0 to 65535.
    pub gain: u16,
    /// How much it takes off a need.
    pub shift: u32,
    /// The node that it leads to, below the graph's number of nodes.
    pub to: u32,
}

/// A graph of so many nodes. The edges stand node by node, and `first` tells at which place those of a node begin.
#[derive(Drop)]
pub struct Graph {
    nodes: usize,
    first: Vec<usize>,
    edges: Vec<Edge>,
}

impl Model for Graph {
    ghost use Rattle.walk_table.specs.Graph.{GraphFields, IsGraph};

    ghost Value = { GraphFields };

    ghost view = { λ s. record { nodes = s.nodes; first = s.first.items; edges = s.edges.items } };

    ghost invariant = { λ s. IsGraph (record { nodes = s.nodes; first = s.first.items; edges = s.edges.items }) };
}

impl Graph {
    ghost use Rattle.walk_table.specs.Graph.{edge_at, first_of, IsGraph};

    /// A graph of so many nodes, numbered from 0, which have no edges. It takes no memory.
    pub fn new(alloc: Global, nodes: usize) -> Graph
        ensures nodes { result.nodes ≡ nodes }
        ensures first { result.first ≡ [] }
        ensures edges { result.edges ≡ [] }
    {
        Graph {
            nodes,
            first: Vec::new(alloc),
            edges: Vec::new(alloc),
        }
    }

    /// Goes on to the next node, from node 0 on, whose edges are those that are added from now on. A node that is never
    /// started has no edges. Errors: only where memory runs out, and then the graph is as before.
    pub fn start_node(&mut self) -> Result<(), AllocError>
        ensures ok { OnOk result (self.new.first ≡ self.old.first ++ length self.old.edges ∷ []) }
        ensures err { OnErr result (self.new.first ≡ self.old.first) }
        ensures nodes { self.new.nodes ≡ self.old.nodes }
        ensures edges { self.new.edges ≡ self.old.edges }
    {
        let place = self.edges.len();
        self.first.push(place)?;
        Ok(())
    }

    /// Adds an edge to the node that was started last. An edge that is added before the first start is no node's. Errors:
    /// only where memory runs out, and then the graph is as before.
    pub fn add(&mut self, edge: Edge) -> Result<(), AllocError>
        requires cost { 1 ≤ edge.cost }
        requires to { edge.to < self.old.nodes }
        ensures ok { OnOk result (self.new.edges ≡ self.old.edges ++ edge ∷ []) }
        ensures err { OnErr result (self.new.edges ≡ self.old.edges) }
        ensures nodes { self.new.nodes ≡ self.old.nodes }
        ensures first { self.new.first ≡ self.old.first }
    {
        self.edges.push(edge)?;
        Ok(())
    }

    /// The number of nodes. The graph is one.
    pub fn nodes(&self) -> usize
        ensures value { result ≡ self.now.nodes }
        ensures graph { IsGraph self.now }
    {
        self.nodes
    }

    /// The number of edges.
    pub fn len(&self) -> usize
        ensures { result ≡ length self.now.edges }
    {
        self.edges.len()
    }

    /// The edge at a place, counted from 0 over all edges in the order in which they were added.
    pub fn edge(&self, place: usize) -> Edge
        requires { place < length self.now.edges }
        ensures value { result ≡ edge_at self.now place }
        ensures cost { 1 ≤ result.cost }
        ensures to { result.to < self.now.nodes }
    {
        self.edges[place]
    }

    /// The places of the edges of a node: from the first on and below the second.
    pub fn places_of(&self, node: usize) -> (usize, usize)
        requires { node < self.now.nodes }
        ensures from { result.0 ≡ first_of self.now node }
        ensures to { result.1 ≡ first_of self.now (node + 1) }
        ensures within { result.1 ≤ length self.now.edges }
    {
        let _nodes = self.nodes;
        (self.first_of(node), self.first_of(node + 1))
    }

    // The place at which the edges of a node begin.
    fn first_of(&self, node: usize) -> usize
        ensures value { result ≡ first_of self.now node }
        ensures within { result ≤ length self.now.edges }
    {
        if node < self.first.len() {
            self.first[node]
        } else {
            self.edges.len()
        }
    }
}
