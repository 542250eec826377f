// The text of the rest of a craft.
ghost use Rattle.std.specs.Prelude.{◌≡◌, ◌≤◌, length, IfOk};
ghost use Rattle.step_rules.specs.Legality.{IsWithin};
ghost use Rattle.step_rules.specs.Macro.{Completes};
ghost use Rattle.step_rules.specs.declared.legality.TheConstants.{MOST_STEPS};
ghost use Rattle.replay_report.specs.Report.{continuation_of};

use crate::states::states_from;
use crate::style::Report;
use crate::table::{first_line, table_text};
use action_table::{Action, WantMemory};
use craft_settings::Settings;
use craft_state::State;
use macro_text::blocks;
use std::alloc::Global;

/// The text of at most `MOST_STEPS` actions that complete the craft from the state `from`: the first line, whose steps
/// and seconds are theirs and whose quality is that of the last state; the macro blocks; the line `replay`; and the
/// table, one line for each action, with the steps numbered from 1.
pub fn continuation(
    alloc: Global,
    g: &Settings,
    from: &State,
    actions: &[Action],
) -> Result<Vec<u8>, WantMemory>
    requires within { IsWithin g.now from.now }
    requires complete { Completes g.now from.now actions.now }
    requires short { length actions.now ≤ MOST_STEPS }
    ensures { IfOk result (λ text. text.items ≡ continuation_of g.now from.now actions.now) }
{
    let states = states_from(alloc, g, from, actions)?;
    let mut text = first_line(alloc, g, actions, &states)?;
    text.extend_from_slice(&blocks(alloc, actions)?)?;
    text.extend_from_slice(b"replay\n")?;
    let table = table_text(alloc, actions, &states, &[], &Report::Plain)?;
    text.extend_from_slice(table.as_bytes())?;
    Ok(text)
}
