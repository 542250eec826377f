// The optimum, read from the table or computed with its column.
ghost use Rattle.std.specs.Prelude.{◌≡◌, ℕ, ◌+◌, ◌≤◌, Contains, length};
ghost use Rattle.seat_tables.specs.Seats.{IsOf, StillSees};
ghost use Rattle.relaxed_moves.specs.Places.{index_of};
ghost use Rattle.table_bound.specs.Bounds.{optimum};

use crate::bound::Bound;
use crate::columns::{MOST_BUCKETS, fill_column};
use crate::rows::{optimum_in, optimum_of_number};
use crate::words::look;
use relaxed_moves::Relaxed;
use seat_tables::{Seat, Shared};

/// The greatest gain of the lists of relaxed moves from `x` that do all the progress within the budget; None exactly
/// where there is no such list. The budget is at most the table's greatest, and the bucket of `x` at most the grain.
/// The seat has then seen the index.
pub fn ask<T: Bound>(
    shared: &Shared<T>,
    seat: &mut Seat<T>,
    budget: u32,
    x: &Relaxed,
) -> Option<u32>
    requires of { IsOf shared.now seat.old }
    requires budget { budget ≤ (T.rules shared.now.truth).most }
    requires bucket { x.now.bucket ≤ (T.rules shared.now.truth).grain }
    ensures of { IsOf shared.now seat.new }
    ensures value { result ≡ optimum (T.rules shared.now.truth) budget x.now }
    ensures seen { Contains seat.new.view.seen (index_of (T.rules shared.now.truth).grain budget x.now) }
    ensures still { StillSees seat.old.view seat.new.view }
{
    match look(shared, seat, budget, x) {
        Some(entry) => optimum_in(entry),
        None => ask_column(shared, seat, budget, x),
    }
}

// The same, where the column is to be computed. Its row stands here, so that a word that is there costs no row.
fn ask_column<T: Bound>(
    shared: &Shared<T>,
    seat: &mut Seat<T>,
    budget: u32,
    x: &Relaxed,
) -> Option<u32>
    requires of { IsOf shared.now seat.old }
    requires budget { budget ≤ (T.rules shared.now.truth).most }
    requires bucket { x.now.bucket ≤ (T.rules shared.now.truth).grain }
    ensures of { IsOf shared.now seat.new }
    ensures value { result ≡ optimum (T.rules shared.now.truth) budget x.now }
    ensures seen { Contains seat.new.view.seen (index_of (T.rules shared.now.truth).grain budget x.now) }
    ensures still { StillSees seat.old.view seat.new.view }
{
    let buckets = shared.truth().grain() as usize + 1;
    let mut row = [0u32; MOST_BUCKETS];
    ask_row(shared, seat, budget, x, &mut row[..buckets])
}

// The same, by a row for the column.
fn ask_row<T: Bound>(
    shared: &Shared<T>,
    seat: &mut Seat<T>,
    budget: u32,
    x: &Relaxed,
    row: &mut [u32],
) -> Option<u32>
    requires of { IsOf shared.now seat.old }
    requires budget { budget ≤ (T.rules shared.now.truth).most }
    requires bucket { x.now.bucket ≤ (T.rules shared.now.truth).grain }
    requires row { length row.old ≡ (T.rules shared.now.truth).grain + 1 }
    ensures of { IsOf shared.now seat.new }
    ensures value { result ≡ optimum (T.rules shared.now.truth) budget x.now }
    ensures seen { Contains seat.new.view.seen (index_of (T.rules shared.now.truth).grain budget x.now) }
    ensures still { StillSees seat.old.view seat.new.view }
{
    fill_column(shared, seat, budget, x, row);
    optimum_of_number(row[x.bucket as usize])
}
