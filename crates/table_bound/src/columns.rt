// Columns: read from the table, or computed and put there.
ghost use Rattle.std.specs.Prelude.{◌≡◌, ℕ, ◌+◌, ◌<◌, ◌≤◌, length, IsTrue};
ghost use Rattle.seat_tables.specs.Seats.{IsOf, StillSees};
ghost use Rattle.relaxed_moves.specs.Scales.{IsScale};
ghost use Rattle.table_bound.specs.Columns.{IsPlaced, IsColumn, IsColumnFrom, IsLowered, SeesBuckets};

use crate::bound::Bound;
use crate::rows::{begin, entry_of_number, move_up, number_of_entry, spread};
use crate::turns::turn_by;
use crate::words::{Column, column_of, look_at, tell};
use action_table::Action;
use lane_front::max_plus;
use relaxed_moves::{Relaxed, Scale};
use seat_tables::{Seat, Shared};

/// The most buckets of a column: 0 to the greatest grain.
pub const MOST_BUCKETS: usize = 65;

// Reads a column into a row from a place on. False where one of these words is still empty.
fn read_from<T: Bound>(
    shared: &Shared<T>,
    seat: &mut Seat<T>,
    column: &Column,
    down: usize,
    row: &mut [u32],
) -> bool
    requires of { IsOf shared.now seat.old }
    requires column { IsPlaced (T.rules shared.now.truth) column.now.budget column.now.x column.now.bottom }
    requires row { length row.old ≡ (T.rules shared.now.truth).grain + 1 }
    requires down { down ≤ (T.rules shared.now.truth).grain }
    ensures of { IsOf shared.now seat.new }
    ensures row { IsTrue result → IsColumnFrom (T.rules shared.now.truth) column.now.budget column.now.x down row.new }
    ensures still { StillSees seat.old.view seat.new.view }
{
    for bucket in 0..row.len() - down {
        match look_at(shared, seat, column, bucket as u32) {
            None => return false,
            Some(entry) => row[bucket + down] = number_of_entry(entry),
        }
    }
    true
}

// Puts a column.
fn put_column<T: Bound>(shared: &Shared<T>, seat: &mut Seat<T>, column: &Column, row: &[u32])
    requires of { IsOf shared.now seat.old }
    requires column { IsPlaced (T.rules shared.now.truth) column.now.budget column.now.x column.now.bottom }
    requires row { length row.now ≡ (T.rules shared.now.truth).grain + 1 }
    requires optima { IsColumn (T.rules shared.now.truth) column.now.budget column.now.x row.now }
    ensures of { IsOf shared.now seat.new }
    ensures seen { SeesBuckets (length row.now) (T.rules shared.now.truth) column.now.budget column.now.x seat.new.view }
    ensures still { StillSees seat.old.view seat.new.view }
{
    for bucket in 0..row.len() {
        tell(
            shared,
            seat,
            column,
            bucket as u32,
            entry_of_number(row[bucket]),
        );
    }
}

// What fills columns: the table, and the scale of its craft.
#[derive(Drop)]
struct Filler<'a, T: Bound> {
    shared: &'a Shared<T>,
    scale: &'a Scale,
    ghost scales: { IsScale (T.rules shared.now.truth).g (T.rules shared.now.truth).grain scale.now },
}

// A column that is moved up, read or else filled.
#[cycle(columns)]
fn lowered<T: Bound>(
    filler: &Filler<T>,
    seat: &mut Seat<T>,
    column: &Column,
    down: usize,
    row: &mut [u32],
)
    requires of { IsOf filler.now.shared.now seat.old }
    requires column { IsPlaced (T.rules filler.now.shared.now.truth) column.now.budget column.now.x column.now.bottom }
    requires row { length row.old ≡ (T.rules filler.now.shared.now.truth).grain + 1 }
    requires down { down ≤ (T.rules filler.now.shared.now.truth).grain }
    ensures of { IsOf filler.now.shared.now seat.new }
    ensures row { IsLowered (T.rules filler.now.shared.now.truth) column.now.budget column.now.x down row.new }
    ensures still { StillSees seat.old.view seat.new.view }
{
    if read_from(filler.shared, seat, column, down, row) {
        spread(row, down);
    } else {
        fill(filler, seat, column, row);
        move_up(row, down);
    }
}

// Fills a column.
#[cycle(columns)]
fn fill<T: Bound>(filler: &Filler<T>, seat: &mut Seat<T>, column: &Column, row: &mut [u32])
    requires of { IsOf filler.now.shared.now seat.old }
    requires column { IsPlaced (T.rules filler.now.shared.now.truth) column.now.budget column.now.x column.now.bottom }
    requires row { length row.old ≡ (T.rules filler.now.shared.now.truth).grain + 1 }
    ensures of { IsOf filler.now.shared.now seat.new }
    ensures row { IsColumn (T.rules filler.now.shared.now.truth) column.now.budget column.now.x row.new }
    ensures seen { SeesBuckets ((T.rules filler.now.shared.now.truth).grain + 1)
        (T.rules filler.now.shared.now.truth) column.now.budget column.now.x seat.new.view }
    ensures still { StillSees seat.old.view seat.new.view }
{
    let mut after = [0u32; MOST_BUCKETS];
    let length = row.len();
    fill_by(filler, seat, column, &mut after[..length], row);
}

// The same, by a row for the columns after each move.
#[cycle(columns)]
fn fill_by<T: Bound>(
    filler: &Filler<T>,
    seat: &mut Seat<T>,
    column: &Column,
    after: &mut [u32],
    row: &mut [u32],
)
    requires of { IsOf filler.now.shared.now seat.old }
    requires column { IsPlaced (T.rules filler.now.shared.now.truth) column.now.budget column.now.x column.now.bottom }
    requires after { length after.old ≡ (T.rules filler.now.shared.now.truth).grain + 1 }
    requires row { length row.old ≡ (T.rules filler.now.shared.now.truth).grain + 1 }
    ensures of { IsOf filler.now.shared.now seat.new }
    ensures row { IsColumn (T.rules filler.now.shared.now.truth) column.now.budget column.now.x row.new }
    ensures seen { SeesBuckets ((T.rules filler.now.shared.now.truth).grain + 1)
        (T.rules filler.now.shared.now.truth) column.now.budget column.now.x seat.new.view }
    ensures still { StillSees seat.old.view seat.new.view }
{
    let truth = filler.shared.truth();
    begin(row);
    for &action in Action::ALL.iter() {
        if let Some(turn) = turn_by(&truth, filler.scale, column, action) {
            lowered(filler, seat, &turn.column, turn.down, after);
            max_plus(row, after, turn.gain);
        }
    }
    put_column(filler.shared, seat, column, row);
}

/// Fills the column of a budget and the effects of `x`: for each bucket the number in `row`, which has one more than
/// the grain, becomes 0 where no plan does all the progress, else 1 + the optimum. The budget is at most the table's
/// greatest. The seat has then seen the indices of the column.
pub fn fill_column<T: Bound>(
    shared: &Shared<T>,
    seat: &mut Seat<T>,
    budget: u32,
    x: &Relaxed,
    row: &mut [u32],
)
    requires of { IsOf shared.now seat.old }
    requires budget { budget ≤ (T.rules shared.now.truth).most }
    requires row { length row.old ≡ (T.rules shared.now.truth).grain + 1 }
    ensures of { IsOf shared.now seat.new }
    ensures row { IsColumn (T.rules shared.now.truth) budget x.now row.new }
    ensures seen { SeesBuckets ((T.rules shared.now.truth).grain + 1) (T.rules shared.now.truth) budget x.now seat.new.view }
    ensures still { StillSees seat.old.view seat.new.view }
{
    let truth = shared.truth();
    let scale = Scale::new(truth.settings(), truth.grain());
    let column = column_of(&truth, budget, x);
    let filler = Filler {
        shared,
        scale: &scale,
    };
    fill(&filler, seat, &column, row);
}
