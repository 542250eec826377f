ghost use Rattle.std.specs.Prelude.{◌≡◌, ◌<◌, IfOk, length};

use crate::{Edge, Graph, Limits, WalkTable};
use std::alloc::{AllocError, Global};
use std::test::Fail;
use std::thread;
use std::thread::Threads;

// Two nodes: from the first a dear edge to the second and a cheap one to itself, from the second one back.
fn two_nodes(alloc: Global) -> Result<Graph, AllocError>
    ensures { IfOk result (λ g. g.nodes ≡ 2) }
{
    let mut graph = Graph::new(alloc, 2);
    graph.start_node()?;
    graph.add(Edge {
        cost: 3,
        gain: 10,
        shift: 2,
        to: 1,
    })?;
    graph.add(Edge {
        cost: 1,
        gain: 1,
        shift: 0,
        to: 0,
    })?;
    graph.start_node()?;
    graph.add(Edge {
        cost: 2,
        gain: 7,
        shift: 1,
        to: 0,
    })?;
    Ok(graph)
}

// Beside each answer stands the walk that gains most.
#[test]
fn answers_the_walks_of_two_nodes(rt: HostRuntime) -> Result<(), Fail> {
    let limits = Limits {
        top: 5,
        needs: 5,
        most: 12,
    };
    let table = WalkTable::new(&rt, rt.alloc(), two_nodes(rt.alloc())?, limits, 1)?;
    assert_eq!(rt; table.at(0, 0, 0), Some(0)); // the walk of no edges
    assert_eq!(rt; table.at(0, 1, 1), None); // nothing is paid for
    assert_eq!(rt; table.at(2, 0, 0), Some(2)); // the cheap edge twice
    assert_eq!(rt; table.at(2, 0, 1), None); // which shifts nothing
    assert_eq!(rt; table.at(3, 0, 0), Some(10)); // the dear one
    assert_eq!(rt; table.at(4, 0, 1), Some(11)); // the cheap one and the dear one
    assert_eq!(rt; table.at(5, 0, 3), Some(12)); // the dear one and back gain 17, which is cut
    assert_eq!(rt; table.at(5, 0, 4), None); // and shift 3
    assert_eq!(rt; table.at(4, 1, 1), Some(9)); // back, and the cheap one twice
    assert_eq!(rt; table.at(4, 1, 2), None); // which shift 1
    assert_eq!(rt; table.at(5, 1, 3), Some(12)); // back and the dear one gain 17
    Ok(())
}

// More nodes than one piece has, and more needs than one vector has words.
const NODES: u32 = 70;

const NEEDS: usize = 21;

const LIMITS: Limits = Limits {
    top: 8,
    needs: NEEDS,
    most: 60000,
};

// The sum of all answers, from a recursion over the walks by another program.
const SUM: u64 = 17847182715334140384;

// Edge `j` of a node. Shifts reach past all needs, and gains past what a word has.
fn edge_of(node: u32, j: u32) -> Edge
    requires node { node < 70 }
    requires place { j < 3 }
    ensures cost { 1 < result.cost }
    ensures to { result.to < 70 }
{
    let drawn = node * 7 + j * 31 + 5;
    Edge {
        cost: 2 + drawn % 3,
        gain: [10, 300, 40000][(drawn % 5 % 3) as usize],
        shift: [0, 3, 17, 40][(drawn % 4) as usize],
        to: drawn % NODES,
    }
}

fn many_nodes(alloc: Global) -> Result<Graph, AllocError>
    ensures { IfOk result (λ g. g.nodes ≡ 70) }
{
    let mut graph = Graph::new(alloc, NODES as usize);
    for node in 0..NODES {
        graph.start_node()?;
        graph.add(edge_of(node, 0))?;
        graph.add(edge_of(node, 1))?;
        graph.add(edge_of(node, 2))?;
    }
    Ok(graph)
}

// Goes on with a sum over the answers of a budget and a node.
fn column_sum(table: &WalkTable, budget: usize, node: usize, before: u64) -> u64
    requires budget { budget < 9 }
    requires node { node < 70 }
    requires nodes { table.now.graph.nodes ≡ 70 }
    requires top { table.now.top ≡ 8 }
    requires needs { table.now.needs ≡ 21 }
{
    let mut sum = before;
    for need in 0..NEEDS {
        let worth = match table.at(budget, node, need) {
            None => 0,
            Some(worth) => u64::from(worth) + 1,
        };
        sum = sum.wrapping_mul(31).wrapping_add(worth);
    }
    sum
}

fn sum_of(table: &WalkTable) -> u64
    requires nodes { table.now.graph.nodes ≡ 70 }
    requires top { table.now.top ≡ 8 }
    requires needs { table.now.needs ≡ 21 }
{
    let mut sum = 0;
    for column in 0..630usize {
        sum = column_sum(table, column / 70, column % 70, sum);
    }
    sum
}

#[test]
fn answers_alike_by_any_number_of_workers(rt: HostRuntime) -> Result<(), Fail> {
    for workers in [0, 1, 2, 4, 64] {
        let table = WalkTable::new(&rt, rt.alloc(), many_nodes(rt.alloc())?, LIMITS, workers)?;
        assert_eq!(rt; sum_of(&table), SUM, "{workers} workers");
    }
    Ok(())
}

// What threads that ask at once are told.
fn sums<R: Threads + Sync>(rt: &R, alloc: Global, table: &WalkTable) -> Result<Vec<u64>, AllocError>
    requires nodes { table.now.graph.nodes ≡ 70 }
    requires top { table.now.top ≡ 8 }
    requires needs { table.now.needs ≡ 21 }
    ensures { IfOk result (λ v. length v.items ≡ 4) }
{
    thread::map_indices(rt, alloc, 4, &|_| sum_of(table))
}

#[test]
fn is_asked_by_many_at_once(rt: HostRuntime) -> Result<(), Fail> {
    let table = WalkTable::new(&rt, rt.alloc(), many_nodes(rt.alloc())?, LIMITS, 3)?;
    let told = sums(&rt, rt.alloc(), &table)?;
    assert_eq!(rt; told.as_slice(), [SUM, SUM, SUM, SUM].as_slice());
    Ok(())
}

// A graph with no nodes has a table, of which nothing can be asked. With no edges there is one walk.
#[test]
fn takes_no_nodes_and_no_edges(rt: HostRuntime) -> Result<(), Fail> {
    let limits = Limits {
        top: 3,
        needs: 2,
        most: 65534,
    };
    WalkTable::new(&rt, rt.alloc(), Graph::new(rt.alloc(), 0), limits, 2)?;
    let table = WalkTable::new(&rt, rt.alloc(), Graph::new(rt.alloc(), 1), limits, 2)?;
    assert_eq!(rt; table.at(3, 0, 0), Some(0));
    assert_eq!(rt; table.at(3, 0, 1), None);
    Ok(())
}
