// The command `certify`: why a macro is the best one.
ghost use Rattle.std.specs.Prelude.{◌≤◌, IfOk, length};
ghost use Rattle.run_io.specs.Halts.{IsAnswerIn, IsIn};
ghost use Rattle.run_io.specs.declared.reading.TheConstants.{READ_MOST};
ghost use Rattle.solve_words.specs.Words.{AreInRange};
ghost use Rattle.solve_engine.specs.Certify.{CertifiesTo, CertifyAnswers};

use crate::machine::Machine;
use crate::searches::best_of;
use crate::solve::nothing;
use action_table::WantMemory;
use craft_settings::Settings;
use run_io::{Answer, Halt, Status, settings_in};
use solve_words::Words;
use std::thread::Threads;
use worker_gate::Gate;

/// What `certify` answers to the bytes of a settings file.
pub(crate) fn certify<R: Threads + Sync, G: Gate>(
    machine: &Machine<'_, R, G>,
    given: &Words,
    input: &[u8],
) -> Result<Answer, Halt>
    requires range { AreInRange given.now }
    requires within { length input.now ≤ READ_MOST }
    ensures { IsIn (CertifyAnswers given.now input.now) result }
{
    let settings = settings_in(machine.alloc, input)?;
    Ok(certified(machine, &settings, given)?)
}

// The certificate of the best macro of a craft.
fn certified<R: Threads + Sync, G: Gate>(
    machine: &Machine<'_, R, G>,
    g: &Settings,
    given: &Words,
) -> Result<Answer, WantMemory>
    requires { AreInRange given.now }
    ensures { IfOk result (IsAnswerIn (CertifiesTo given.now.grain g.now)) }
{
    let alloc = machine.alloc;
    let Some(actions) = best_of(machine, g, given)? else {
        return nothing(alloc);
    };
    Ok(Answer {
        status: Status::Solved,
        text: certificate_maker::certify(machine.rt, alloc, g, given.grain, &actions)?,
    })
}
