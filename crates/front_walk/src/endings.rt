// The completions that a level leads to.
ghost use Rattle.std.specs.Prelude.{◌≡◌, ◌++◌, IfOk, OnOk, All};
ghost use Rattle.prefix_fronts.specs.Prefix.{finishes};
ghost use Rattle.front_walk.specs.Nodes.{IsNode, child_by, children_by, nodes_by, soonest_of, soonest_from};

use crate::state_test::StateTest;
use crate::walk::Walk;
use action_table::{Action, WantMemory};
use pareto_front::{Node, PackedNode};
use std::alloc::Global;
use step_rules::{check, counted, is_complete, step};

/// The completions with the wanted quality of the nodes of a level, in order.
pub(crate) fn endings<T: StateTest>(
    alloc: Global,
    walk: &Walk<'_, T>,
    nodes: &[PackedNode],
) -> Result<Vec<Node>, WantMemory>
    requires nodes { All (IsNode walk.now.g.now (T.allows walk.now.test.now)) nodes.now }
    ensures { let w = walk.now in IfOk result (λ v. v.items ≡ nodes_by w.g.now (finishes w.g.now w.target) nodes.now) }
{
    let mut found = Vec::new(alloc);
    for (place, packed) in nodes.iter().enumerate() {
        push_endings(&mut found, walk, place, &packed.node())?;
    }
    Ok(found)
}

// Appends the completions of a node.
#[tactic(auto, unfolding(crate::specs::Nodes::children_by))]
fn push_endings<T: StateTest>(
    found: &mut Vec<Node>,
    walk: &Walk<'_, T>,
    place: usize,
    node: &Node,
) -> Result<(), WantMemory>
    requires { IsNode walk.now.g.now (T.allows walk.now.test.now) node.now }
    ensures { let w = walk.now in
        OnOk result (found.new.items ≡ found.old.items ++ children_by w.g.now (finishes w.g.now w.target) place node.now) }
{
    for &action in Action::ALL.iter() {
        if let Some(next) = ending(walk, place, node, action) {
            found.push(next)?;
        }
    }
    Ok(())
}

// The child by an action, if it completes the craft with the wanted quality.
#[tactic(auto, unfolding(crate::specs::Nodes::child_by))]
fn ending<T: StateTest>(
    walk: &Walk<'_, T>,
    place: usize,
    node: &Node,
    action: Action,
) -> Option<Node>
    requires { IsNode walk.now.g.now (T.allows walk.now.test.now) node.now }
    ensures { let w = walk.now in result ≡ child_by w.g.now (finishes w.g.now w.target) place node.now action }
{
    let g = walk.g;
    if check(g, &node.state, action).is_err() {
        return None;
    }
    let state = step(g, &node.state, action);
    if !is_complete(g, &state) || counted(g, &state) != walk.target {
        return None;
    }
    Some(Node {
        state,
        seconds: node.seconds + action.seconds(),
        parent: place,
        action,
    })
}

/// The first node of the fewest seconds.
#[tactic(auto, unfolding(crate::specs::Nodes::soonest_from))]
pub(crate) fn soonest(nodes: &[Node]) -> Option<Node>
    ensures { result ≡ soonest_of nodes.now }
{
    let [first, rest @ ..] = nodes else {
        return None;
    };
    let mut best = *first;
    for node in rest {
        if node.seconds < best.seconds {
            best = *node;
        }
    }
    Some(best)
}
