ghost use Rattle.std.specs.Prelude.{◌≡◌, ◌≤◌, ◌+◌, ◌*◌, ◌/◌, Some, None, IfOk, IfErr, length};
ghost use Rattle.step_rules.specs.Legality.{IsWithin};
ghost use Rattle.step_rules.specs.Measure.{measure};
ghost use Rattle.step_rules.specs.Run.{run_of, StopsAt};

use crate::changes::step;
use crate::legality::{Illegal, check};
use action_table::Action;
use craft_settings::Settings;
use craft_state::State;

/// The first illegal action of a list: its place, counted from 0, the reason and the state before it.
#[derive(Clone, Copy, PartialEq, Eq, Debug)]
pub struct Stop {
    pub place: usize,
    pub why: Illegal,
    pub state: State,
}

/// The state after a list of actions, or where the list stops: the first action that isn't legal in its turn.
/// No list that runs is longer than a quarter of the measure of `from`.
pub fn replay(g: &Settings, from: &State, actions: &[Action]) -> Result<State, Stop>
    requires { IsWithin g.now from.now }
    ensures ok { IfOk result (λ last. run_of g.now from.now actions.now ≡ Some last) }
    ensures within { IfOk result (λ last. IsWithin g.now last) }
    ensures short { IfOk result (λ last. measure last + 4 * length actions.now ≤ measure from.now) }
    ensures at_most { IfOk result (λ _. length actions.now ≤ measure from.now / 4) }
    ensures stops { IfErr result (λ stop. StopsAt g.now from.now actions.now stop.place stop.why stop.state) }
    ensures stopped_within { IfErr result (λ stop. IsWithin g.now stop.state) }
    ensures no_run { IfErr result (λ _. run_of g.now from.now actions.now ≡ None) }
{
    let mut state = *from;
    for (place, &action) in actions.iter().enumerate() {
        if let Err(why) = check(g, &state, action) {
            return Err(Stop { place, why, state });
        }
        state = step(g, &state, action);
    }
    Ok(state)
}
