// The command `sample`: the best macro of the sample settings of a number.
ghost use Rattle.std.specs.Prelude.{◌≤◌};
ghost use Rattle.run_io.specs.Halts.{IsIn};
ghost use Rattle.sample_craft.specs.Sample.{most_number};
ghost use Rattle.solve_words.specs.Words.{AreInRange};
ghost use Rattle.solve_engine.specs.Sample.{SampleAnswers};

use crate::machine::Machine;
use crate::searches::find;
use replay_report::{sample_none, sample_report};
use run_io::{Answer, Halt, Status};
use sample_craft::settings_of;
use solve_words::Words;
use std::thread::Threads;
use worker_gate::Gate;

/// What `sample` answers for a number.
pub(crate) fn sample<R: Threads + Sync, G: Gate>(
    machine: &Machine<'_, R, G>,
    given: &Words,
    n: u32,
) -> Result<Answer, Halt>
    requires range { AreInRange given.now }
    requires number { n ≤ most_number }
    ensures { IsIn (SampleAnswers given.now n) result }
{
    let alloc = machine.alloc;
    let g = settings_of(n);
    let Some(found) = find(machine, &g, given)? else {
        return Ok(Answer {
            status: Status::NoMacro,
            text: sample_none(alloc, n, &g)?,
        });
    };
    Ok(Answer {
        status: Status::Solved,
        text: sample_report(alloc, n, &g, &found.actions, &found.counts)?,
    })
}
