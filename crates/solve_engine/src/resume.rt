// The command `resume`: the best way to end a craft after actions that are done.
ghost use Rattle.std.specs.Prelude.{◌≡◌, ◌≤◌, IfErr, IfOk, length};
ghost use Rattle.craft_settings.specs.Ranges.{IsFromTo};
ghost use Rattle.macro_order.specs.Order.{IsBestAfter};
ghost use Rattle.replay_report.specs.Report.{continuation_of};
ghost use Rattle.run_io.specs.Halts.{IsAnswerIn, IsIn};
ghost use Rattle.run_io.specs.declared.reading.TheConstants.{READ_MOST};
ghost use Rattle.solve_engine.specs.Resume.{IsHaltOfDone, ResumeAnswers, ResumesTo, unfit_line};

use crate::machine::Machine;
use crate::solve::nothing;
use action_table::{Action, WantMemory};
use best_search::seekers;
use craft_settings::Settings;
use replay_report::{continuation, reason_word};
use resume_start::{Underway, Unfit, best_rest};
use run_io::{Answer, Halt, Status, settings_in};
use std::alloc::Global;
use std::thread::Threads;
use worker_gate::{Crew, Gate};

/// What `resume` answers to the bytes of a settings file.
pub(crate) fn resume<R: Threads + Sync, G: Gate>(
    machine: &Machine<'_, R, G>,
    workers: u32,
    done: &[Action],
    input: &[u8],
) -> Result<Answer, Halt>
    requires workers { IsFromTo 1 64 workers }
    requires within { length input.now ≤ READ_MOST }
    ensures { IsIn (ResumeAnswers done.now input.now) result }
{
    let settings = settings_in(machine.alloc, input)?;
    let craft = craft_after(machine.alloc, &settings, done)?;
    Ok(resumed(machine, workers, &craft)?)
}

// The craft after the actions that are done. It halts where one of them isn't legal in its turn, or the craft is over.
fn craft_after<'a>(alloc: Global, g: &'a Settings, done: &'a [Action]) -> Result<Underway<'a>, Halt>
    ensures craft { IfOk result (λ craft. craft.g.now ≡ g.entry.now) }
    ensures done { IfOk result (λ craft. craft.done.now ≡ done.entry.now) }
    ensures halts { IfErr result (IsHaltOfDone g.entry.now done.entry.now) }
{
    match Underway::after(g, done) {
        Ok(craft) => Ok(craft),
        Err(unfit) => Err(Halt::refused(Status::BadPrefix, unfit_text(alloc, unfit)?)),
    }
}

// The line that tells why a craft doesn't go on. Steps are counted from 1.
fn unfit_text(alloc: Global, unfit: Unfit) -> Result<Vec<u8>, WantMemory>
    ensures { IfOk result (λ line. line.items ≡ unfit_line unfit) }
{
    match unfit {
        Unfit::Illegal { place, why } => {
            let (number, reason) = (place as u128 + 1, reason_word(why));
            let line = format!(in alloc; "done: step {number}: {reason}\n")?;
            Ok(line.into_bytes())
        }
        Unfit::Over => Ok(Vec::from_slice(alloc, b"done: the craft is over\n")?),
    }
}

// The text of the best way to end the craft, or `none` where nothing completes it.
fn resumed<R: Threads + Sync, G: Gate>(
    machine: &Machine<'_, R, G>,
    workers: u32,
    craft: &Underway<'_>,
) -> Result<Answer, WantMemory>
    requires { IsFromTo 1 64 workers }
    ensures { IfOk result (IsAnswerIn (ResumesTo craft.now.done.now craft.now.g.now)) }
{
    let Machine { rt, alloc, gate } = *machine;
    let mut crew = Crew::new(rt, gate, seekers(alloc, workers)?);
    let Some(rest) = best_rest(&mut crew, alloc, craft)? else {
        return nothing(alloc);
    };
    Ok(Answer {
        status: Status::Solved,
        text: rest_text(alloc, craft, &rest)?,
    })
}

// The text of the best list after what is done, whose steps are counted from the state after that.
fn rest_text(alloc: Global, craft: &Underway<'_>, rest: &[Action]) -> Result<Vec<u8>, WantMemory>
    requires { IsBestAfter craft.now.g.now craft.now.done.now rest.now }
    ensures { IfOk result (λ text. text.items ≡ continuation_of craft.now.g.now craft.now.from rest.now) }
{
    continuation(alloc, craft.g, &craft.from, rest)
}
