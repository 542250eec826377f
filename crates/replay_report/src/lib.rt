//! The text that is written for a macro.
#![tactic(auto)]

ghost use Rattle.std.specs.Prelude.{◌≡◌, length, IfOk};
ghost use Rattle.step_rules.specs.Legality.{start_of};
ghost use Rattle.step_rules.specs.Macro.{Completes};
ghost use Rattle.replay_report.specs.Report.{report_of};

mod counts;
mod lines;
mod prefixes;
mod reasons;
mod replayed;
mod rest;
mod sample;
mod states;
mod style;
mod table;

use action_table::{Action, WantMemory};
use counts::{kept_text, levels_shown};
use craft_settings::Settings;
pub use lines::{head, table_line};
use macro_text::blocks;
pub use prefixes::limits;
pub use reasons::reason_word;
pub use replayed::{ended_replay, stopped_replay};
pub use rest::continuation;
pub use sample::{sample_none, sample_report};
use states::states_of;
use std::alloc::Global;
pub use style::Report;
use table::{first_line, table_text};

/// The text of a macro that completes the craft: the first line, the line `kept` with the sum of the counts, the macro
/// blocks, the line `replay`, and the table with one line for each step. In the style Limits there is one limit for
/// each action, and the line of its step ends with it. In the style Levels a line for each count follows, with its
/// level from 0.
pub fn report(
    alloc: Global,
    g: &Settings,
    actions: &[Action],
    counts: &[u64],
    limits: &[u32],
    style: &Report,
) -> Result<Vec<u8>, WantMemory>
    requires complete { Completes g.now (start_of g.now) actions.now }
    requires limits { style.now ≡ Report.Limits → length limits.now ≡ length actions.now }
    ensures { IfOk result (λ text. text.items ≡ report_of g.now style.now counts.now limits.now actions.now) }
{
    let _level = g.level;
    let states = states_of(alloc, g, actions)?;
    let mut text = first_line(alloc, g, actions, &states)?;
    text.extend_from_slice(kept_text(alloc, counts)?.as_bytes())?;
    text.extend_from_slice(&blocks(alloc, actions)?)?;
    text.extend_from_slice(b"replay\n")?;
    text.extend_from_slice(table_text(alloc, actions, &states, limits, style)?.as_bytes())?;
    text.extend_from_slice(levels_shown(alloc, counts, style)?.as_bytes())?;
    Ok(text)
}

#[cfg(test)]
mod tests;
