// All levels of a certificate.
ghost use Rattle.std.specs.Prelude.{◌≡◌, ◌<◌, ◌^◌, IfOk, All, length, string_bytes};
ghost use Rattle.craft_settings.specs.Ranges.{AreSettings};
ghost use Rattle.step_rules.specs.Legality.{start_of};
ghost use Rattle.front_walk.specs.Nodes.{root_node};
ghost use Rattle.front_check.specs.Judging.{bounds_of, claim_of};
ghost use Rattle.certificate_maker.specs.Marks.{MayGoOn, level_marks, next_nodes};
ghost use Rattle.certificate_maker.specs.Written.{IsWritten, IsLevelText};

use crate::marks::{marks_of, open_of};
use crate::rivals::buckets_of;
use crate::stage::Stage;
use crate::written::{opening, push_level, push_rows};
use action_table::{Action, WantMemory};
use front_check::{Claimed, Limits};
use pareto_front::{Node, prune};
use std::thread::Threads;
use step_rules::{MOST_STEPS, start};

// No legal macro has more than `MOST_STEPS` steps, so that the level after that has no kept prefix.
const LEVELS: u32 = MOST_STEPS + 2;

/// The certificate of the claimed macro.
pub(crate) fn write_levels<L: Limits>(
    rt: &(impl Threads + Sync),
    limits: &mut L,
    claimed: &Claimed<'_>,
) -> Result<Vec<u8>, WantMemory>
    requires bounds { L.bounds limits.old ≡ bounds_of claimed.now }
    requires settings { AreSettings claimed.now.g.now }
    ensures { IfOk result (λ bytes. IsWritten (claim_of claimed.now) bytes.items) }
{
    let mut text = opening(claimed)?;
    let mut nodes = Vec::new(claimed.alloc);
    nodes.push(root(claimed))?;
    for number in 0..LEVELS {
        let count = nodes.len();
        push_level(&mut text, number, count)?;
        if count == 0 {
            return Ok(text.into_bytes());
        }
        let stage = Stage {
            claimed: &*claimed,
            left: claimed.score.steps.saturating_sub(number + 1),
            nodes: nodes.as_slice(),
        };
        nodes = write_level(rt, limits, &stage, &mut text)?;
    }
    unreachable!()
}

// No action yet.
fn root(claimed: &Claimed<'_>) -> Node
    ensures { result ≡ root_node (start_of claimed.now.g.now) }
{
    Node {
        state: start(claimed.g),
        seconds: 0,
        parent: 0,
        action: Action::BasicSynthesis,
    }
}

// Appends the rows of a level, and answers the nodes of the next one.
fn write_level<L: Limits>(
    rt: &(impl Threads + Sync),
    limits: &mut L,
    stage: &Stage<'_, '_>,
    text: &mut String,
) -> Result<Vec<Node>, WantMemory>
    requires bounds { L.bounds limits.old ≡ bounds_of stage.now.claimed.now }
    requires nodes { All (MayGoOn stage.now.claimed.now.g.now) stage.now.nodes.now }
    ensures next { IfOk result (λ next. next.items ≡ next_nodes (claim_of stage.now.claimed.now) stage.now.left stage.now.nodes.now) }
    ensures few { IfOk result (λ next. length next.items < 2 ^ 64) }
    ensures rows { IfOk result (λ next. IsLevelText next.items
        (level_marks (claim_of stage.now.claimed.now) stage.now.left stage.now.nodes.now)
        (string_bytes text.old) (string_bytes text.new)) }
    ensures still { L.bounds limits.new ≡ L.bounds limits.old }
{
    let alloc = stage.claimed.alloc;
    let marks = marks_of(limits, stage)?;
    let open = open_of(alloc, &marks)?;
    let next = prune(rt, alloc, open)?;
    let buckets = buckets_of(alloc, &next)?;
    push_rows(text, &buckets, &marks)?;
    let _few = next.len();
    Ok(next)
}
