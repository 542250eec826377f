// The budget optimum, and the limit of a state.
ghost use Rattle.std.specs.Prelude.{◌≡◌, ◌≤◌, Contains};
ghost use Rattle.seat_tables.specs.Seats.{IsOf, StillSees};
ghost use Rattle.step_rules.specs.Legality.{IsWithin};
ghost use Rattle.relaxed_moves.specs.Budget.{potential_of, start_potential_of};
ghost use Rattle.relaxed_moves.specs.Optimum.{opt, limit_of};
ghost use Rattle.relaxed_moves.specs.Places.{index_of};
ghost use Rattle.relaxed_moves.specs.Scales.{IsScale};

use crate::truth::QualityTruth;
use craft_state::State;
use relaxed_moves::{Relaxed, Scale, potential_by};
use seat_tables::{Seat, Shared};
use table_bound::limit_within;

/// The greatest gain of quality of the lists of relaxed moves from `x` that do all the progress and cost at most
/// `beta` in CP; None exactly where there is no such list. `beta` is at most the potential of the start, and the
/// bucket of `x` at most the grain. The seat has then seen the index. No memory is taken, and nobody is waited for.
pub fn ask(
    shared: &Shared<QualityTruth>,
    seat: &mut Seat<QualityTruth>,
    beta: u32,
    x: &Relaxed,
) -> Option<u32>
    requires of { IsOf shared.now seat.old }
    requires beta { beta ≤ start_potential_of shared.now.truth.g }
    requires bucket { x.now.bucket ≤ shared.now.truth.grain }
    ensures of { IsOf shared.now seat.new }
    ensures value { result ≡ opt shared.now.truth.g shared.now.truth.grain beta x.now }
    ensures seen { Contains seat.new.view.seen (index_of shared.now.truth.grain beta x.now) }
    ensures still { StillSees seat.old.view seat.new.view }
{
    table_bound::ask(shared, seat, beta, x)
}

/// The limit of a live state after the first step: the most quality that counts of a macro through it, as its
/// potential allows; None where the progress can't be done. The potential is at most that of the start. No memory is
/// taken, and nobody is waited for.
pub fn limit(shared: &Shared<QualityTruth>, seat: &mut Seat<QualityTruth>, s: &State) -> Option<u32>
    requires of { IsOf shared.now seat.old }
    requires within { IsWithin shared.now.truth.g s.now }
    requires potential { potential_of shared.now.truth.g s.now ≤ start_potential_of shared.now.truth.g }
    ensures of { IsOf shared.now seat.new }
    ensures value { result ≡ limit_of shared.now.truth.g shared.now.truth.grain s.now }
    ensures still { StillSees seat.old.view seat.new.view }
{
    let truth = shared.truth();
    limit_by(shared, seat, &Scale::new(&truth.g, truth.grain), s)
}

/// The same as `limit`, by the scale of the table's craft and grain, which a search makes once for all of its states:
/// the most quality that counts of a macro through a live state after the first step, None where the progress can't be
/// done. The potential of the state is at most that of the start. No memory is taken, and nobody is waited for.
pub fn limit_by(
    shared: &Shared<QualityTruth>,
    seat: &mut Seat<QualityTruth>,
    scale: &Scale,
    s: &State,
) -> Option<u32>
    requires of { IsOf shared.now seat.old }
    requires scale { IsScale shared.now.truth.g shared.now.truth.grain scale.now }
    requires within { IsWithin shared.now.truth.g s.now }
    requires potential { potential_of shared.now.truth.g s.now ≤ start_potential_of shared.now.truth.g }
    ensures of { IsOf shared.now seat.new }
    ensures value { result ≡ limit_of shared.now.truth.g shared.now.truth.grain s.now }
    ensures still { StillSees seat.old.view seat.new.view }
{
    let truth = shared.truth();
    let means = potential_by(&truth.g, &scale.weights, s);
    limit_within(shared, seat, scale, means, s)
}
