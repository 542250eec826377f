// The step optimum, and the limit of a state within so many steps.
ghost use Rattle.std.specs.Prelude.{◌≡◌, ◌≤◌, Contains};
ghost use Rattle.seat_tables.specs.Seats.{IsOf, StillSees};
ghost use Rattle.step_rules.specs.Legality.{IsWithin};
ghost use Rattle.relaxed_moves.specs.Optimum.{reach, within_of};
ghost use Rattle.relaxed_moves.specs.Places.{index_of};
ghost use Rattle.relaxed_moves.specs.Scales.{IsScale};

use crate::truth::StepTruth;
use craft_state::State;
use relaxed_moves::{MOST_MOVES, Relaxed, Scale};
use seat_tables::{Seat, Shared};
use table_bound::limit_within;

/// The greatest gain of quality of the lists of at most `j` relaxed moves from `x` that do all the progress; None
/// exactly where there is no such list. `j` is at most `MOST_MOVES`, and the bucket of `x` at most the grain. The seat has then
/// seen the index. No memory is taken, and nobody is waited for.
pub fn ask(
    shared: &Shared<StepTruth>,
    seat: &mut Seat<StepTruth>,
    j: u32,
    x: &Relaxed,
) -> Option<u32>
    requires of { IsOf shared.now seat.old }
    requires moves { j ≤ MOST_MOVES }
    requires bucket { x.now.bucket ≤ shared.now.truth.grain }
    ensures of { IsOf shared.now seat.new }
    ensures value { result ≡ reach shared.now.truth.g shared.now.truth.grain j x.now }
    ensures seen { Contains seat.new.view.seen (index_of shared.now.truth.grain j x.now) }
    ensures still { StillSees seat.old.view seat.new.view }
{
    table_bound::ask(shared, seat, j, x)
}

/// The most quality that counts of a macro through a live state after the first step, in at most `j` steps more; None
/// where the progress can't be done in them. Above `MOST_MOVES` steps it is the most that counts at all. No memory is taken,
/// and nobody is waited for.
pub fn within(
    shared: &Shared<StepTruth>,
    seat: &mut Seat<StepTruth>,
    s: &State,
    j: u32,
) -> Option<u32>
    requires of { IsOf shared.now seat.old }
    requires within { IsWithin shared.now.truth.g s.now }
    ensures of { IsOf shared.now seat.new }
    ensures value { result ≡ within_of shared.now.truth.g shared.now.truth.grain s.now j }
    ensures still { StillSees seat.old.view seat.new.view }
{
    let truth = shared.truth();
    within_by(shared, seat, &Scale::new(&truth.g, truth.grain), s, j)
}

/// The same as `within`, by the scale of the table's craft and grain, which a search makes once for all of its states:
/// the most quality that counts of a macro through a live state after the first step, in at most `j` steps more; None
/// where the progress can't be done in them. Above `MOST_MOVES` steps it is the most that counts at all. No memory is
/// taken, and nobody is waited for.
pub fn within_by(
    shared: &Shared<StepTruth>,
    seat: &mut Seat<StepTruth>,
    scale: &Scale,
    s: &State,
    j: u32,
) -> Option<u32>
    requires of { IsOf shared.now seat.old }
    requires scale { IsScale shared.now.truth.g shared.now.truth.grain scale.now }
    requires within { IsWithin shared.now.truth.g s.now }
    ensures of { IsOf shared.now seat.new }
    ensures value { result ≡ within_of shared.now.truth.g shared.now.truth.grain s.now j }
    ensures still { StillSees seat.old.view seat.new.view }
{
    if j > MOST_MOVES {
        return Some(shared.truth().g.cap());
    }
    limit_within(shared, seat, scale, j, s)
}
