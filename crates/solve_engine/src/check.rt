// The command `check`: whether a macro is the best one.
ghost use Rattle.std.specs.Prelude.{ℕ, ◌≡◌, ◌≤◌, ◌↔◌, ◌++◌, IfOk, IsTrue, List, length};
ghost use Rattle.craft_settings.specs.Ranges.{IsFromTo};
ghost use Rattle.macro_order.specs.Order.{IsBest};
ghost use Rattle.run_io.specs.Halts.{IsAnswerIn, IsIn};
ghost use Rattle.run_io.specs.declared.reading.TheConstants.{READ_MOST};
ghost use Rattle.solve_words.specs.Words.{AreInRange};
ghost use Rattle.solve_engine.specs.Check.{ChecksTo, CheckAnswers, best_line, not_best_line};
ghost use Rattle.solve_engine.specs.Search.{IsFound};
ghost use Rattle.solve_engine.specs.Solve.{IsMacroText};

use crate::machine::Machine;
use crate::pasted::{Pasted, pasted_in};
use crate::searches::{Found, best_of, find};
use crate::solve::{macro_text, nothing};
use action_table::WantMemory;
use craft_settings::Settings;
use macro_order::laws::one_is_best;
use macro_order::score;
use replay_report::Report;
use run_io::{Answer, Halt, Status};
use solve_words::Words;
use std::alloc::Global;
use std::thread::Threads;
use worker_gate::Gate;

/// What `check` answers to settings and macro text.
pub(crate) fn check<R: Threads + Sync, G: Gate>(
    machine: &Machine<'_, R, G>,
    given: &Words,
    input: &[u8],
) -> Result<Answer, Halt>
    requires range { AreInRange given.now }
    requires within { length input.now ≤ READ_MOST }
    ensures { IsIn (CheckAnswers given.now input.now) result }
{
    let pasted = pasted_in(machine.alloc, input)?;
    Ok(checked(machine, &pasted, given)?)
}

// Whether the macro is the best one for its craft.
fn checked<R: Threads + Sync, G: Gate>(
    machine: &Machine<'_, R, G>,
    pasted: &Pasted,
    given: &Words,
) -> Result<Answer, WantMemory>
    requires { AreInRange given.now }
    ensures { IfOk result (IsAnswerIn (ChecksTo given.now.grain pasted.now.craft pasted.now.actions.items)) }
{
    let alloc = machine.alloc;
    if is_best(machine, pasted, given)? {
        return Ok(Answer {
            status: Status::Solved,
            text: best_text(alloc)?,
        });
    }
    let Some(mut found) = find(machine, &pasted.craft, given)? else {
        return nothing(alloc);
    };
    Ok(Answer {
        status: Status::NotBest,
        text: not_best_text(alloc, &pasted.craft, given.grain, &mut found)?,
    })
}

// The best macro is only searched for where this one completes the craft.
fn is_best<R: Threads + Sync, G: Gate>(
    machine: &Machine<'_, R, G>,
    pasted: &Pasted,
    given: &Words,
) -> Result<bool, WantMemory>
    requires { AreInRange given.now }
    ensures { IfOk result (λ yes. IsTrue yes ↔ IsBest pasted.now.craft pasted.now.actions.items) }
{
    let Pasted { craft, actions } = pasted;
    if score(craft, actions).is_none() {
        return Ok(false);
    }
    one_is_best();
    match best_of(machine, craft, given)? {
        Some(best) => Ok(best.as_slice() == actions.as_slice()),
        None => Ok(false),
    }
}

fn best_text(alloc: Global) -> Result<Vec<u8>, WantMemory>
    ensures { IfOk result (λ text. text.items ≡ best_line) }
{
    Ok(Vec::from_slice(alloc, b"best\n")?)
}

// The text of the best macro, after a line.
fn not_best_text(
    alloc: Global,
    g: &Settings,
    grain: u32,
    found: &mut Found,
) -> Result<Vec<u8>, WantMemory>
    requires grain { IsFromTo 1 64 grain }
    requires found { IsFound g.now grain found.old }
    ensures { IfOk result (λ text. (shown : List ℕ) × IsMacroText g.now grain Report.Plain found.old.actions.items shown
        × (text.items ≡ not_best_line ++ shown)) }
{
    let mut text = Vec::from_slice(alloc, b"not best\n")?;
    text.extend_from_slice(&macro_text(alloc, g, grain, Report::Plain, found)?)?;
    Ok(text)
}
