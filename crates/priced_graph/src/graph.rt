ghost use Rattle.std.specs.Prelude.{ℕ, ◌≡◌, ◌≤◌, ◌<◌, ◌++◌, ◌∷◌, [], ◌↔◌, IsTrue, length, OnOk, IfOk};
ghost use Rattle.priced_moves.specs.Moves.{AreSmallUnits};
ghost use Rattle.priced_moves.specs.Prices.{AreFair, AreSmall};
ghost use Rattle.priced_graph.specs.Building.{IsAdded, IsNodeAdded};
ghost use Rattle.priced_graph.specs.Graphs.{graph_edge, outdoes, LeadsOn, LeadOn, IsOutdone, IsGraphOf};
ghost use Rattle.priced_graph.specs.Sights.{node_count};

use crate::sights::Sights;
use action_table::WantMemory;
use craft_settings::Settings;
use priced_moves::{Prices, Units, edges};
use std::alloc::{AllocError, Global};
use walk_table::{Edge, Graph};

/// The graph of a craft: its nodes are the craft's sights, by their numbers, and the edges of a node stand for those
/// that priced moves lead over from its sight. An edge that another one outdoes may be left out. Errors: only where
/// memory runs out.
pub fn graph_of(alloc: Global, p: &Prices, g: &Settings, units: &Units) -> Result<Graph, WantMemory>
    requires prices { AreSmall p.now }
    requires fair { AreFair g.now p.now }
    requires units { AreSmallUnits units.now }
    ensures { IfOk result (IsGraphOf p.now g.now units.now) }
{
    let sights = Sights::of(g);
    let nodes = sights.nodes();
    let mut graph = Graph::new(alloc, nodes);
    for node in 0..nodes {
        let listed = edges(alloc, p, g, units, &sights.seen(node))?;
        add_node(&mut graph, &sights, listed.as_slice())?;
    }
    Ok(graph)
}

// Goes on to the next node, and adds edges that stand for these.
fn add_node(
    graph: &mut Graph,
    sights: &Sights,
    edges: &[priced_moves::Edge],
) -> Result<(), AllocError>
    requires nodes { graph.old.nodes ≡ node_count sights.now }
    requires lead { LeadOn sights.now edges.now }
    ensures { OnOk result (IsNodeAdded sights.now graph.old graph.new edges.now (length edges.now)) }
{
    let from = graph.len();
    graph.start_node()?;
    for i in 0..edges.len() {
        add_edge(graph, sights, from, &edges[i])?;
    }
    Ok(())
}

// Adds an edge to the node whose edges begin at a place, where none of these outdoes it.
fn add_edge(
    graph: &mut Graph,
    sights: &Sights,
    from: usize,
    edge: &priced_moves::Edge,
) -> Result<(), AllocError>
    requires nodes { graph.old.nodes ≡ node_count sights.now }
    requires lead { LeadsOn sights.now edge.now }
    requires from { from ≤ length graph.old.edges }
    ensures { OnOk result (IsAdded sights.now graph.old graph.new from edge.now) }
{
    let between = between_nodes(sights, edge);
    if !is_outdone(graph, from, &between) {
        graph.add(between)?;
    }
    Ok(())
}

// The edge between the nodes.
fn between_nodes(sights: &Sights, edge: &priced_moves::Edge) -> Edge
    requires { LeadsOn sights.now edge.now }
    ensures value { result ≡ graph_edge sights.now edge.now }
    ensures cost { 1 ≤ result.cost }
    ensures to { result.to < node_count sights.now }
{
    Edge {
        cost: edge.cost,
        gain: edge.gain.min(65535) as u16,
        shift: edge.shift,
        to: sights.number(&edge.to) as u32,
    }
}

// Whether an edge at one of the places from a first on outdoes this one.
fn is_outdone(graph: &Graph, from: usize, edge: &Edge) -> bool
    requires { from ≤ length graph.now.edges }
    ensures { IsTrue result ↔ IsOutdone graph.now from (length graph.now.edges) edge.now }
{
    for place in from..graph.len() {
        if outdoes(&graph.edge(place), edge) {
            return true;
        }
    }
    false
}

// Whether one edge leads where another does, costs no more, and gains and shifts no less.
fn outdoes(d: &Edge, e: &Edge) -> bool
    ensures { result ≡ outdoes d.now e.now }
{
    d.to == e.to && d.cost <= e.cost && e.gain <= d.gain && e.shift <= d.shift
}
