// The limits along a macro.
ghost use Rattle.std.specs.Prelude.{◌≡◌, Some, IfOk, OnErr, true, false};
ghost use Rattle.seat_tables.specs.Seats.{IsOf, StillSees};
ghost use Rattle.step_rules.specs.Legality.{IsWithin, is_complete, is_over, start_of};
ghost use Rattle.step_rules.specs.Macro.{Completes, counted};
ghost use Rattle.relaxed_moves.specs.Optimum.{limit_of};
ghost use Rattle.replay_report.specs.Limits.{AreLimited, AreLimitsAlong, IsLimited};

use crate::states::states_of;
use action_table::{Action, WantMemory};
use craft_settings::Settings;
use craft_state::State;
use quality_bound::{QualityTruth, limit};
use seat_tables::{Seat, Shared};
use std::alloc::Global;
use step_rules::{counted, is_complete};

/// The limits along a macro that completes the craft: after each action the most quality that a macro can still
/// reach, at the table's grain, and after the last the quality that counts.
///
/// Table and seat are those of the craft. Each prefix of one action or more that leaves the craft going has a limit,
/// and no greater potential than the start. Room for all limits is taken before the first is asked: refused for
/// memory the seat is as it was.
pub fn limits(
    alloc: Global,
    g: &Settings,
    shared: &Shared<QualityTruth>,
    seat: &mut Seat<QualityTruth>,
    actions: &[Action],
) -> Result<Vec<u32>, WantMemory>
    requires table { shared.now.truth.g ≡ g.now }
    requires of { IsOf shared.now seat.old }
    requires complete { Completes g.now (start_of g.now) actions.now }
    requires limited { AreLimited g.now shared.now.truth.grain actions.now }
    ensures refused { OnErr result (seat.new ≡ seat.old) }
    ensures limits { IfOk result (λ limits. AreLimitsAlong g.now shared.now.truth.grain actions.now limits.items) }
    ensures of { IsOf shared.now seat.new }
    ensures still { StillSees seat.old.view seat.new.view }
{
    let states = states_of(alloc, g, actions)?;
    let mut limits = Vec::with_capacity(alloc, actions.len())?;
    for place in 0..actions.len() {
        limits.push_reserved(limit_after(g, shared, seat, &states[place + 1]));
    }
    Ok(limits)
}

// The limit of a state, and the quality that counts where it completes the craft.
fn limit_after(
    g: &Settings,
    shared: &Shared<QualityTruth>,
    seat: &mut Seat<QualityTruth>,
    s: &State,
) -> u32
    requires table { shared.now.truth.g ≡ g.now }
    requires of { IsOf shared.now seat.old }
    requires within { IsWithin g.now s.now }
    requires limited { is_complete g.now s.now ≡ false → IsLimited g.now shared.now.truth.grain s.now }
    ensures going { is_complete g.now s.now ≡ false → limit_of g.now shared.now.truth.grain s.now ≡ Some result }
    ensures complete { is_complete g.now s.now ≡ true → result ≡ counted g.now s.now }
    ensures of { IsOf shared.now seat.new }
    ensures still { StillSees seat.old.view seat.new.view }
{
    if is_complete(g, s) {
        return counted(g, s);
    }
    let Some(most) = limit(shared, seat, s) else {
        unreachable!()
    };
    most
}
