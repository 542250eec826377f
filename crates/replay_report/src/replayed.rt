// The text of a macro that needn't complete the craft.
ghost use Rattle.std.specs.Prelude.{◌≡◌, ◌≢◌, None, Some, IfOk, string_bytes};
ghost use Rattle.step_rules.specs.Legality.{start_of};
ghost use Rattle.step_rules.specs.Run.{run_of, StopsAt};
ghost use Rattle.replay_report.specs.Replayed.{ending_of, ended_replay_of, replay_with_of, stop_line, stopped_replay_of};

use crate::reasons::reason_word;
use crate::states::states_of;
use crate::style::Report;
use crate::table::table_text;
use action_table::{Action, WantMemory};
use craft_settings::Settings;
use craft_state::State;
use std::alloc::{AllocError, Global};
use step_rules::{Illegal, Stop, is_complete, is_final};

/// The text of actions that are legal in turn and end in the state `last`: the line `replay`, the table in the plain
/// style, and a line on the last state. It is `complete`, `failed` where the durability is used up before, or `live`.
pub fn ended_replay(
    alloc: Global,
    g: &Settings,
    actions: &[Action],
    last: &State,
) -> Result<Vec<u8>, WantMemory>
    requires { run_of g.now (start_of g.now) actions.now ≡ Some last.now }
    ensures { IfOk result (λ text. text.items ≡ ended_replay_of g.now actions.now last.now) }
{
    replay_with(alloc, g, actions, ending(g, last))
}

/// The text of actions of which one isn't legal in its turn: the line `replay`, the table of those before it in the
/// plain style, and the line `step N: REASON` with its number, counted from 1.
pub fn stopped_replay(
    alloc: Global,
    g: &Settings,
    actions: &[Action],
    stop: Stop,
) -> Result<Vec<u8>, WantMemory>
    requires { StopsAt g.now (start_of g.now) actions.now stop.place stop.why stop.state }
    ensures { IfOk result (λ text. text.items ≡ stopped_replay_of g.now actions.now stop.place stop.why) }
{
    let line = stop_text(alloc, stop.place + 1, stop.why)?;
    replay_with(alloc, g, &actions[..stop.place], line.as_bytes())
}

// The line `replay`, the table and a last line.
fn replay_with(
    alloc: Global,
    g: &Settings,
    actions: &[Action],
    line: &[u8],
) -> Result<Vec<u8>, WantMemory>
    requires { run_of g.now (start_of g.now) actions.now ≢ None }
    ensures { IfOk result (λ text. text.items ≡ replay_with_of g.now actions.now line.now) }
{
    let _level = g.level;
    let states = states_of(alloc, g, actions)?;
    let table = table_text(alloc, actions, &states, &[], &Report::Plain)?;
    let mut text = Vec::from_slice(alloc, b"replay\n")?;
    text.extend_from_slice(table.as_bytes())?;
    text.extend_from_slice(line)?;
    Ok(text)
}

// The line on the state that a macro ends in.
fn ending(g: &Settings, last: &State) -> &'static [u8]
    ensures { result.now ≡ ending_of g.now last.now }
{
    if is_complete(g, last) {
        b"complete\n"
    } else if is_final(g, last) {
        b"failed\n"
    } else {
        b"live\n"
    }
}

// The line of the step that isn't legal.
fn stop_text(alloc: Global, number: usize, why: Illegal) -> Result<String, AllocError>
    ensures { IfOk result (λ line. string_bytes line ≡ stop_line number why) }
{
    let reason = reason_word(why);
    format!(in alloc; "step {number}: {reason}\n")
}
