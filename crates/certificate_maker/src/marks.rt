// What is known of the children of a level before the next level is.
ghost use Rattle.std.specs.Prelude.{◌≡◌, ◌++◌, ◌<◌, IfOk, OnOk, All, filter_map};
ghost use Rattle.front_check.specs.Judging.{bounds_of, claim_of};
ghost use Rattle.certificate_maker.specs.Marks.{MayGoOn, child_mark, node_marks, level_marks, opened};

use crate::settle::settle;
use crate::stage::Stage;
use action_table::{Action, WantMemory};
use certificate_text::Verdict;
use front_check::Limits;
use pareto_front::Node;
use std::alloc::Global;
use step_rules::{check, step};

/// The verdict of a child, or the child where the others decide; and the end of the row of a node.
#[derive(Clone, Copy)]
pub(crate) enum Mark {
    Settled { verdict: Verdict },
    Open { child: Node },
    RowEnd,
}

/// The marks of the children of a level, node by node.
pub(crate) fn marks_of<L: Limits>(
    limits: &mut L,
    stage: &Stage<'_, '_>,
) -> Result<Vec<Mark>, WantMemory>
    requires bounds { L.bounds limits.old ≡ bounds_of stage.now.claimed.now }
    requires nodes { All (MayGoOn stage.now.claimed.now.g.now) stage.now.nodes.now }
    ensures marks { IfOk result (λ marks.
        marks.items ≡ level_marks (claim_of stage.now.claimed.now) stage.now.left stage.now.nodes.now) }
    ensures still { L.bounds limits.new ≡ L.bounds limits.old }
{
    let mut marks = Vec::new(stage.claimed.alloc);
    for place in 0..stage.nodes.len() {
        push_marks(&mut marks, limits, stage, place, &stage.nodes[place])?;
    }
    Ok(marks)
}

// Appends the marks of the children of a node, and the end of its row.
#[tactic(auto, unfolding(crate::specs::Marks::node_marks))]
fn push_marks<L: Limits>(
    marks: &mut Vec<Mark>,
    limits: &mut L,
    stage: &Stage<'_, '_>,
    place: usize,
    node: &Node,
) -> Result<(), WantMemory>
    requires bounds { L.bounds limits.old ≡ bounds_of stage.now.claimed.now }
    requires node { MayGoOn stage.now.claimed.now.g.now node.now }
    ensures marks { OnOk result (
        marks.new.items ≡ marks.old.items ++ node_marks (claim_of stage.now.claimed.now) stage.now.left place node.now) }
    ensures still { L.bounds limits.new ≡ L.bounds limits.old }
{
    for &action in Action::ALL.iter() {
        if let Some(mark) = mark_by(limits, stage, place, node, action) {
            marks.push(mark)?;
        }
    }
    marks.push(Mark::RowEnd)?;
    Ok(())
}

// The mark of the child by an action, if it is legal.
#[tactic(auto, unfolding(crate::specs::Marks::child_mark))]
fn mark_by<L: Limits>(
    limits: &mut L,
    stage: &Stage<'_, '_>,
    place: usize,
    node: &Node,
    action: Action,
) -> Option<Mark>
    requires bounds { L.bounds limits.old ≡ bounds_of stage.now.claimed.now }
    requires node { MayGoOn stage.now.claimed.now.g.now node.now }
    ensures mark { result ≡ child_mark (claim_of stage.now.claimed.now) stage.now.left place node.now action }
    ensures still { L.bounds limits.new ≡ L.bounds limits.old }
{
    let g = stage.claimed.g;
    if check(g, &node.state, action).is_err() {
        return None;
    }
    let state = step(g, &node.state, action);
    match settle(limits, stage, &state) {
        Some(verdict) => Some(Mark::Settled { verdict }),
        None => Some(Mark::Open {
            child: Node {
                state,
                seconds: node.seconds + action.seconds(),
                parent: place,
                action,
            },
        }),
    }
}

/// The children of a level that the others decide about, in order.
pub(crate) fn open_of(alloc: Global, marks: &[Mark]) -> Result<Vec<Node>, WantMemory>
    ensures { IfOk result (λ nodes. nodes.items ≡ filter_map opened marks.now) }
{
    Ok(marks.iter().filter_map(opened).collect(alloc)?)
}

fn opened(mark: &Mark) -> Option<Node>
    ensures { result ≡ opened mark.now }
{
    match mark {
        Mark::Open { child } => Some(*child),
        _ => None,
    }
}
