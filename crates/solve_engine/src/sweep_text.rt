// The text of a sweep.
ghost use Rattle.std.specs.Prelude.{◌≡◌, ◌<◌, ◌≤◌, ◌++◌, IfOk, IfSome, option_map};
ghost use Rattle.replay_report.specs.Report.{first_line};
ghost use Rattle.step_rules.specs.Legality.{start_of};
ghost use Rattle.solve_engine.specs.Sweep.{least_line, part_below, part_of, short_line};
ghost use Rattle.stat_sweep.specs.declared.TheConstants.{MOST_BASE};

use action_table::{Action, WantMemory};
use craft_settings::Settings;
use macro_text::blocks;
use replay_report::head;
use stat_sweep::{MOST_BASE, Plan};
use std::alloc::Global;
use step_rules::{replay, start};

/// The text where the greatest base quality isn't enough. `at` is the best macro there.
pub(crate) fn short_text(alloc: Global, g: &Settings, at: &Plan) -> Result<Vec<u8>, WantMemory>
    ensures { IfOk result (λ text. text.items ≡ short_line g.now ++ part_of g.now MOST_BASE at.now) }
{
    let quality = g.cap();
    let line = format!(in alloc; "no base quality to 5000 reaches {quality}\n")?;
    let mut text = line.into_bytes();
    text.extend_from_slice(&part(alloc, g, MOST_BASE, &at.actions)?)?;
    Ok(text)
}

/// The text of the least base quality that is enough, with the best macro there, and the best macro at one less, which
/// is there where the base quality is above 1.
pub(crate) fn least_text(
    alloc: Global,
    g: &Settings,
    base: u32,
    at: &Plan,
    below: Option<&Plan>,
) -> Result<Vec<u8>, WantMemory>
    requires low { 1 ≤ base }
    requires high { base ≤ MOST_BASE }
    requires below { IfSome below (λ _. 1 < base) }
    ensures { IfOk result (λ text. text.items ≡ least_line g.now base ++ part_of g.now base at.now
        ++ part_below g.now base (option_map (λ p. p.now) below.entry)) }
{
    let quality = g.cap();
    let line = format!(in alloc; "least base quality {base} for quality {quality}\n")?;
    let mut text = line.into_bytes();
    text.extend_from_slice(&part(alloc, g, base, &at.actions)?)?;
    text.extend_from_slice(&part_below(alloc, g, base, below)?)?;
    Ok(text)
}

// The best macro at one less, if there is one.
fn part_below(
    alloc: Global,
    g: &Settings,
    base: u32,
    below: Option<&Plan>,
) -> Result<Vec<u8>, WantMemory>
    requires high { base ≤ MOST_BASE }
    requires below { IfSome below (λ _. 1 < base) }
    ensures { IfOk result (λ text. text.items ≡ part_below g.now base (option_map (λ p. p.now) below.entry)) }
{
    match below {
        Some(plan) => part(alloc, g, base - 1, &plan.actions),
        None => Ok(Vec::new(alloc)),
    }
}

// A macro at a base quality: the line that names that, the first line of a report, and the blocks.
fn part(alloc: Global, g: &Settings, base: u32, actions: &[Action]) -> Result<Vec<u8>, WantMemory>
    requires low { 1 ≤ base }
    requires high { base ≤ MOST_BASE }
    ensures { IfOk result (λ text. text.items ≡ part_of g.now base actions.now) }
{
    let crafter = Settings {
        base_quality: base,
        ..*g
    };
    let line = format!(in alloc; "at {base}\n")?;
    let mut text = line.into_bytes();
    text.extend_from_slice(&numbers(alloc, &crafter, actions)?)?;
    text.extend_from_slice(&blocks(alloc, actions)?)?;
    Ok(text)
}

// The first line of a report, for actions that are legal in turn.
fn numbers(alloc: Global, g: &Settings, actions: &[Action]) -> Result<Vec<u8>, WantMemory>
    ensures { IfOk result (λ text. text.items ≡ first_line g.now (start_of g.now) actions.now) }
{
    match replay(g, &start(g), actions) {
        Ok(last) => head(alloc, g, actions, &last),
        Err(_) => Ok(Vec::new(alloc)),
    }
}
