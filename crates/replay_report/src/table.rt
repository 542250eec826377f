ghost use Rattle.std.specs.Prelude.{◌≡◌, ◌≤◌, ◌+◌, length, string_bytes, IfOk};
ghost use Rattle.craft_settings.specs.Ranges.{SettingsFields};
ghost use Rattle.craft_state.specs.Craft.{StateFields};
ghost use Rattle.step_rules.specs.declared.legality.TheConstants.{MOST_STEPS};
ghost use Rattle.replay_report.specs.States.{AreStatesOf};
ghost use Rattle.replay_report.specs.Report.{first_line, table_of};

use crate::lines::{head, push_row};
use crate::style::{Report, shown};
use action_table::{Action, WantMemory};
use craft_settings::Settings;
use craft_state::State;
use std::alloc::{AllocError, Global};

// The first line of a list with these states.
pub(crate) fn first_line(
    alloc: Global,
    g: &Settings,
    actions: &[Action],
    states: &[State],
) -> Result<Vec<u8>, WantMemory>
    requires as_many { length states.now ≡ length actions.now + 1 }
    requires short { length actions.now ≤ MOST_STEPS }
    ensures { IfOk result (λ text. (from : StateFields) → AreStatesOf g.now from actions.now states.now
        → text.items ≡ first_line g.now from actions.now) }
{
    head(alloc, g, actions, &states[actions.len()])
}

// The table of a list with these states, one line for each step.
pub(crate) fn table_text(
    alloc: Global,
    actions: &[Action],
    states: &[State],
    limits: &[u32],
    style: &Report,
) -> Result<String, AllocError>
    requires as_many { length states.now ≡ length actions.now + 1 }
    requires short { length actions.now ≤ MOST_STEPS }
    requires limits { style.now ≡ Report.Limits → length limits.now ≡ length actions.now }
    ensures { IfOk result (λ text. (g : SettingsFields) (from : StateFields) → AreStatesOf g from actions.now states.now
        → string_bytes text ≡ table_of g from style.now limits.now actions.now) }
{
    let mut text = String::new(alloc);
    for (place, &action) in actions.iter().enumerate() {
        let limit = shown(style, limits, place);
        push_row(
            &mut text,
            place as u32 + 1,
            action,
            &states[place + 1],
            limit,
        )?;
    }
    Ok(text)
}
