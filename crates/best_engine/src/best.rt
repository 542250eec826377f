// The best macro for the settings that come in.
ghost use Rattle.std.specs.Prelude.{◌≡◌, ◌≤◌, IfOk, length};
ghost use Rattle.craft_settings.specs.Ranges.{IsFromTo};
ghost use Rattle.macro_order.specs.Order.{IsBest};
ghost use Rattle.step_rules.specs.Legality.{start_of};
ghost use Rattle.replay_report.specs.Report.{continuation_of};
ghost use Rattle.replay_report.specs.Sample.{none_line};
ghost use Rattle.run_io.specs.Halts.{IsIn};
ghost use Rattle.run_io.specs.declared.reading.TheConstants.{READ_MOST};
ghost use Rattle.best_engine.specs.Best.{BestAnswers};

use action_table::{Action, WantMemory};
use best_search::best_with;
use craft_settings::Settings;
use replay_report::continuation;
use run_io::{Answer, Halt, Status, settings_in};
use std::alloc::Global;
use std::thread::Threads;
use step_rules::start;
use worker_gate::Gate;

/// What is answered to the bytes of a settings file, with so many workers.
pub(crate) fn best<G: Gate>(
    rt: &(impl Threads + Sync),
    alloc: Global,
    workers: u32,
    input: &[u8],
    gate: &G,
) -> Result<Answer, Halt>
    requires workers { IsFromTo 1 64 workers }
    requires within { length input.now ≤ READ_MOST }
    ensures { IsIn (BestAnswers input.now) result }
{
    let g = settings_in(alloc, input)?;
    let Some(actions) = best_with(rt, alloc, &g, workers, gate)? else {
        return Ok(Answer {
            status: Status::NoMacro,
            text: none_text(alloc)?,
        });
    };
    Ok(Answer {
        status: Status::Solved,
        text: text_of(alloc, &g, &actions)?,
    })
}

fn none_text(alloc: Global) -> Result<Vec<u8>, WantMemory>
    ensures { IfOk result (λ text. text.items ≡ none_line) }
{
    Ok(Vec::from_slice(alloc, b"none\n")?)
}

// The text of the best macro.
fn text_of(alloc: Global, g: &Settings, actions: &[Action]) -> Result<Vec<u8>, WantMemory>
    requires { IsBest g.now actions.now }
    ensures { IfOk result (λ text. text.items ≡ continuation_of g.now (start_of g.now) actions.now) }
{
    let _level = g.level;
    continuation(alloc, g, &start(g), actions)
}
