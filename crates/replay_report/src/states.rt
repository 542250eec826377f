// The states of a list of actions.
ghost use Rattle.std.specs.Prelude.{◌≢◌, IfOk, None};
ghost use Rattle.step_rules.specs.Legality.{IsWithin, start_of};
ghost use Rattle.step_rules.specs.Run.{run_of};
ghost use Rattle.replay_report.specs.States.{AreStatesOf};

use action_table::Action;
use craft_settings::Settings;
use craft_state::State;
use std::alloc::{AllocError, Global};
use step_rules::{start, step};

// The start, and the state after each of the actions that are legal in turn.
pub(crate) fn states_of(
    alloc: Global,
    g: &Settings,
    actions: &[Action],
) -> Result<Vec<State>, AllocError>
    requires { run_of g.now (start_of g.now) actions.now ≢ None }
    ensures { IfOk result (λ states. AreStatesOf g.now (start_of g.now) actions.now states.items) }
{
    states_from(alloc, g, &start(g), actions)
}

// A state, and that after each of the actions that are legal in turn from it.
pub(crate) fn states_from(
    alloc: Global,
    g: &Settings,
    from: &State,
    actions: &[Action],
) -> Result<Vec<State>, AllocError>
    requires within { IsWithin g.now from.now }
    requires legal { run_of g.now from.now actions.now ≢ None }
    ensures { IfOk result (λ states. AreStatesOf g.now from.now actions.now states.items) }
{
    let mut states = Vec::new(alloc);
    let mut state = *from;
    states.push(state)?;
    for &action in actions {
        state = step(g, &state, action);
        states.push(state)?;
    }
    Ok(states)
}
