// The command `solve`: the best macro for the settings that come in.
ghost use Rattle.std.specs.Prelude.{◌≡◌, ◌≤◌, IfOk, length};
ghost use Rattle.craft_settings.specs.Ranges.{AreSettings, IsFromTo};
ghost use Rattle.step_rules.specs.Legality.{start_of};
ghost use Rattle.step_rules.specs.Macro.{Completes};
ghost use Rattle.replay_report.specs.Limits.{AreLimited, AreLimitsFor};
ghost use Rattle.replay_report.specs.Sample.{none_line};
ghost use Rattle.run_io.specs.Halts.{IsIn};
ghost use Rattle.run_io.specs.declared.reading.TheConstants.{READ_MOST};
ghost use Rattle.solve_words.specs.Words.{AreInRange};
ghost use Rattle.solve_engine.specs.Search.{IsFound};
ghost use Rattle.solve_engine.specs.Solve.{IsMacroText, SolveAnswers, SolvesTo};

use crate::machine::Machine;
use crate::searches::{Found, find};
use action_table::{Action, WantMemory};
use admissible::laws::{macro_law, start_law};
use craft_settings::Settings;
use replay_report::{Report, limits, report};
use run_io::{Answer, Halt, Status, settings_in};
use solve_words::Words;
use std::alloc::Global;
use std::thread::Threads;
use step_rules::start;
use worker_gate::Gate;

/// What `solve` answers to the bytes of a settings file.
pub(crate) fn solve<R: Threads + Sync, G: Gate>(
    machine: &Machine<'_, R, G>,
    given: &Words,
    input: &[u8],
) -> Result<Answer, Halt>
    requires range { AreInRange given.now }
    requires within { length input.now ≤ READ_MOST }
    ensures { IsIn (SolveAnswers given.now input.now) result }
{
    let settings = settings_in(machine.alloc, input)?;
    solve_for(machine, &settings, given)
}

// The text of the best macro of a craft, or `none` where no legal macro completes it.
fn solve_for<R: Threads + Sync, G: Gate>(
    machine: &Machine<'_, R, G>,
    g: &Settings,
    given: &Words,
) -> Result<Answer, Halt>
    requires { AreInRange given.now }
    ensures { IsIn (SolvesTo given.now g.now) result }
{
    let alloc = machine.alloc;
    let Some(mut found) = find(machine, g, given)? else {
        return Ok(nothing(alloc)?);
    };
    Ok(Answer {
        status: Status::Solved,
        text: macro_text(alloc, g, given.grain, given.report, &mut found)?,
    })
}

/// The answer where no legal macro completes the craft.
pub(crate) fn nothing(alloc: Global) -> Result<Answer, WantMemory>
    ensures status { IfOk result (λ answer. answer.status ≡ Status.NoMacro) }
    ensures text { IfOk result (λ answer. answer.text.items ≡ none_line) }
{
    Ok(Answer {
        status: Status::NoMacro,
        text: Vec::from_slice(alloc, b"none\n")?,
    })
}

/// The text of the macro in a style.
pub(crate) fn macro_text(
    alloc: Global,
    g: &Settings,
    grain: u32,
    style: Report,
    found: &mut Found,
) -> Result<Vec<u8>, WantMemory>
    requires grain { IsFromTo 1 64 grain }
    requires found { IsFound g.now grain found.old }
    ensures { IfOk result (λ text. IsMacroText g.now grain style found.old.actions.items text.items) }
{
    let limits = limits_for(alloc, g, grain, style, found)?;
    report(alloc, g, &found.actions, &found.counts, &limits, &style)
}

// The limits that a style shows.
fn limits_for(
    alloc: Global,
    g: &Settings,
    grain: u32,
    style: Report,
    found: &mut Found,
) -> Result<Vec<u32>, WantMemory>
    requires grain { IsFromTo 1 64 grain }
    requires found { IsFound g.now grain found.old }
    ensures limits { IfOk result (λ limits. AreLimitsFor g.now grain style found.old.actions.items limits.items) }
    ensures same { found.new.actions ≡ found.old.actions × found.new.counts ≡ found.old.counts }
{
    match style {
        Report::Limits => {
            limited_law(g, grain, &found.actions);
            limits(alloc, g, &found.table, &mut found.seat, &found.actions)
        }
        Report::Plain | Report::Levels => Ok(Vec::new(alloc)),
    }
}

// Each prefix of a macro that completes the craft has a limit, where it leaves the craft going: the laws of the
// limits say so.
fn limited_law(g: &Settings, grain: u32, actions: &[Action])
    requires grain { 1 ≤ grain }
    requires complete { Completes g.now (start_of g.now) actions.now }
    ensures settings { AreSettings g.now }
    ensures limited { AreLimited g.now grain actions.now }
{
    start_law();
    macro_law();
    let _first = start(g);
    let _actions = actions;
}
