// The children of the nodes of a level that go on and pass.
ghost use Rattle.std.specs.Prelude.{◌≡◌, ◌≤◌, ◌++◌, IfOk, OnOk, length, true};
ghost use Rattle.step_rules.specs.Legality.{IsWithin};
ghost use Rattle.front_walk.specs.Nodes.{IsNode, children_by, next_by, nodes_upto, goes_and_passes};

use crate::state_test::StateTest;
use crate::walk::Stage;
use action_table::{Action, WantMemory};
use craft_state::State;
use pareto_front::{Node, PackedNode};
use std::alloc::Global;
use step_rules::{check, is_final, step};

/// The children of the nodes from one place on and below another.
pub(crate) fn children_in<T: StateTest>(
    alloc: Global,
    stage: &Stage<'_, T>,
    from: usize,
    to: usize,
    asker: &mut T::Asker,
) -> Result<Vec<PackedNode>, WantMemory>
    requires asker { T.may_ask stage.now.walk.now.test.now asker.old }
    requires order { from ≤ to }
    requires inside { to ≤ length stage.now.nodes.now }
    ensures asker { T.may_ask stage.now.walk.now.test.now asker.new }
    ensures still { T.still_asks asker.old asker.new }
    ensures found { let w = stage.now.walk.now in let test = goes_and_passes w.g.now (T.passes w.test.now) stage.now.left in
        IfOk result (λ v. nodes_upto w.g.now test stage.now.nodes.now from ++ v.items ≡ nodes_upto w.g.now test stage.now.nodes.now to) }
{
    let mut found = Vec::new(alloc);
    for place in from..to {
        let node = stage.nodes[place].node();
        push_children(&mut found, stage, place, &node, asker)?;
    }
    Ok(found)
}

// Appends the children of a node that go on and pass.
#[tactic(auto, unfolding(crate::specs::Nodes::children_by))]
fn push_children<T: StateTest>(
    found: &mut Vec<PackedNode>,
    stage: &Stage<'_, T>,
    place: usize,
    node: &Node,
    asker: &mut T::Asker,
) -> Result<(), WantMemory>
    requires asker { T.may_ask stage.now.walk.now.test.now asker.old }
    requires node { IsNode stage.now.walk.now.g.now (T.allows stage.now.walk.now.test.now) node.now }
    ensures asker { T.may_ask stage.now.walk.now.test.now asker.new }
    ensures still { T.still_asks asker.old asker.new }
    ensures found { let w = stage.now.walk.now in OnOk result (found.new.items
        ≡ found.old.items ++ children_by w.g.now (goes_and_passes w.g.now (T.passes w.test.now) stage.now.left) place node.now) }
{
    for &action in Action::ALL.iter() {
        if let Some(state) = next_state(stage, &node.state, action, asker) {
            found.push(PackedNode::of(&Node {
                state,
                seconds: node.seconds + action.seconds(),
                parent: place,
                action,
            }))?;
        }
    }
    Ok(())
}

// The state after an action, if the craft goes on and it passes. No node is made of one that doesn't.
#[tactic(auto, unfolding(crate::specs::Nodes::next_by))]
fn next_state<T: StateTest>(
    stage: &Stage<'_, T>,
    state: &State,
    action: Action,
    asker: &mut T::Asker,
) -> Option<State>
    requires asker { T.may_ask stage.now.walk.now.test.now asker.old }
    requires within { IsWithin stage.now.walk.now.g.now state.now }
    requires allowed { T.allows stage.now.walk.now.test.now state.now ≡ true }
    ensures asker { T.may_ask stage.now.walk.now.test.now asker.new }
    ensures still { T.still_asks asker.old asker.new }
    ensures value { let w = stage.now.walk.now in
        result ≡ next_by w.g.now (goes_and_passes w.g.now (T.passes w.test.now) stage.now.left) state.now action }
{
    let walk = stage.walk;
    if check(walk.g, state, action).is_err() {
        return None;
    }
    let next = step(walk.g, state, action);
    if is_final(walk.g, &next) || !walk.test.passes(asker, stage.left, &next) {
        return None;
    }
    Some(next)
}
