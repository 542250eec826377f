// The command `replay`: what a macro does, step by step.
ghost use Rattle.std.specs.Prelude.{◌≤◌, IfOk, length};
ghost use Rattle.run_io.specs.Halts.{IsAnswerIn, IsIn};
ghost use Rattle.run_io.specs.declared.reading.TheConstants.{READ_MOST};
ghost use Rattle.solve_engine.specs.Replay.{PlaysTo, ReplayAnswers};

use crate::pasted::pasted_in;
use action_table::{Action, WantMemory};
use craft_settings::Settings;
use replay_report::{ended_replay, stopped_replay};
use run_io::{Answer, Halt, Status};
use std::alloc::Global;
use step_rules::start;

/// What `replay` answers to settings and macro text.
pub(crate) fn replay(alloc: Global, input: &[u8]) -> Result<Answer, Halt>
    requires { length input.now ≤ READ_MOST }
    ensures { IsIn (ReplayAnswers input.now) result }
{
    let pasted = pasted_in(alloc, input)?;
    Ok(played(alloc, &pasted.craft, &pasted.actions)?)
}

// What a macro does, up to its end or to the first action that isn't legal in its turn.
fn played(alloc: Global, g: &Settings, actions: &[Action]) -> Result<Answer, WantMemory>
    ensures { IfOk result (IsAnswerIn (PlaysTo g.now actions.now)) }
{
    match step_rules::replay(g, &start(g), actions) {
        Ok(last) => Ok(Answer {
            status: Status::Solved,
            text: ended_replay(alloc, g, actions, &last)?,
        }),
        Err(stop) => Ok(Answer {
            status: Status::StoppedMacro,
            text: stopped_replay(alloc, g, actions, stop)?,
        }),
    }
}
