// The most quality that counts, by the optimum.
ghost use Rattle.std.specs.Prelude.{◌≡◌, ◌≤◌};
ghost use Rattle.seat_tables.specs.Seats.{IsOf, StillSees};
ghost use Rattle.step_rules.specs.Legality.{IsWithin};
ghost use Rattle.relaxed_moves.specs.Moves.{relax_of};
ghost use Rattle.relaxed_moves.specs.Optimum.{capped};
ghost use Rattle.relaxed_moves.specs.Scales.{IsScale};
ghost use Rattle.table_bound.specs.Bounds.{optimum};

use crate::asks::ask;
use crate::bound::Bound;
use craft_state::State;
use relaxed_moves::{Scale, relax_by};
use seat_tables::{Seat, Shared};

/// The most quality that counts of a craft in state `s` with so much of a budget left; None where the progress can't
/// be done within it. The state is one of the craft, the scale its own, and the budget at most the table's greatest.
pub fn limit_within<T: Bound>(
    shared: &Shared<T>,
    seat: &mut Seat<T>,
    scale: &Scale,
    budget: u32,
    s: &State,
) -> Option<u32>
    requires of { IsOf shared.now seat.old }
    requires scale { IsScale (T.rules shared.now.truth).g (T.rules shared.now.truth).grain scale.now }
    requires budget { budget ≤ (T.rules shared.now.truth).most }
    requires within { IsWithin (T.rules shared.now.truth).g s.now }
    ensures of { IsOf shared.now seat.new }
    ensures value { result ≡ capped (T.rules shared.now.truth).g s.now (optimum (T.rules shared.now.truth) budget
        (relax_of (T.rules shared.now.truth).g (T.rules shared.now.truth).grain s.now)) }
    ensures still { StillSees seat.old.view seat.new.view }
{
    let truth = shared.truth();
    let x = relax_by(truth.settings(), truth.grain(), scale.unit, s);
    match ask(shared, seat, budget, &x) {
        None => None,
        Some(gain) => Some(truth.settings().cap().min(s.quality + gain)),
    }
}
