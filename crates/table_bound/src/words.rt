// The words of a table.
ghost use Rattle.std.specs.Prelude.{◌≡◌, ◌≤◌, ◌<◌, Contains, IfSome};
ghost use Rattle.seat_tables.specs.Seats.{IsOf, StillSees};
ghost use Rattle.relaxed_moves.specs.Columns.{at_bucket};
ghost use Rattle.relaxed_moves.specs.Places.{index_of};
ghost use Rattle.table_bound.specs.Bounds.{entry_by, optimum};
ghost use Rattle.table_bound.specs.Columns.{IsPlaced};

use crate::bound::Bound;
use race_core::Entry;
use relaxed_moves::{Relaxed, at_bucket, bucket_place, column_place, index};
use seat_tables::{Seat, Shared};

// A column of a table: a budget, the relaxed state of the highest bucket, and the place of bucket 0.
#[derive(Clone, Copy)]
pub(crate) struct Column {
    pub budget: u32,
    pub x: Relaxed,
    pub bottom: usize,
}

// The column of a budget and the effects of a relaxed state.
pub(crate) fn column_of<T: Bound>(truth: &T, budget: u32, x: &Relaxed) -> Column
    requires { budget ≤ (T.rules truth.now).most }
    ensures budget { result.budget ≡ budget }
    ensures x { result.x ≡ at_bucket x.now (T.rules truth.now).grain }
    ensures placed { IsPlaced (T.rules truth.now) result.budget result.x result.bottom }
{
    let grain = truth.grain();
    let bottom = column_place(grain, budget, x);
    Column {
        budget,
        x: at_bucket(x, grain),
        bottom,
    }
}

// The index of a relaxed state, and the entry that belongs there.
fn index_in<T: Bound>(shared: &Shared<T>, budget: u32, x: &Relaxed) -> usize
    requires budget { budget ≤ (T.rules shared.now.truth).most }
    requires bucket { x.now.bucket ≤ (T.rules shared.now.truth).grain }
    ensures value { result ≡ index_of (T.rules shared.now.truth).grain budget x.now }
    ensures inside { result < T.size shared.now.truth }
    ensures entry { T.entry shared.now.truth result ≡ entry_by (optimum (T.rules shared.now.truth) budget x.now) }
{
    let truth = shared.truth();
    index(truth.grain(), budget, x)
}

// The same, of a bucket of a column.
fn index_at<T: Bound>(shared: &Shared<T>, column: &Column, bucket: u32) -> usize
    requires column { IsPlaced (T.rules shared.now.truth) column.now.budget column.now.x column.now.bottom }
    requires bucket { bucket ≤ (T.rules shared.now.truth).grain }
    ensures value { result ≡ index_of (T.rules shared.now.truth).grain column.now.budget (at_bucket column.now.x bucket) }
    ensures inside { result < T.size shared.now.truth }
    ensures entry { T.entry shared.now.truth result ≡ entry_by (optimum (T.rules shared.now.truth) column.now.budget
        (at_bucket column.now.x bucket)) }
{
    let truth = shared.truth();
    bucket_place(
        truth.grain(),
        column.budget,
        &column.x,
        column.bottom,
        bucket,
    )
}

// Reads the entry of a relaxed state, None where its word is still empty.
pub(crate) fn look<T: Bound>(
    shared: &Shared<T>,
    seat: &mut Seat<T>,
    budget: u32,
    x: &Relaxed,
) -> Option<Entry>
    requires of { IsOf shared.now seat.old }
    requires budget { budget ≤ (T.rules shared.now.truth).most }
    requires bucket { x.now.bucket ≤ (T.rules shared.now.truth).grain }
    ensures of { IsOf shared.now seat.new }
    ensures value { IfSome result (λ entry. entry ≡ entry_by (optimum (T.rules shared.now.truth) budget x.now)) }
    ensures seen { IfSome result (λ _. Contains seat.new.view.seen (index_of (T.rules shared.now.truth).grain budget x.now)) }
    ensures still { StillSees seat.old.view seat.new.view }
{
    let place = index_in(shared, budget, x);
    shared.load(seat, place)
}

// Reads the entry of a bucket of a column, None where its word is still empty.
pub(crate) fn look_at<T: Bound>(
    shared: &Shared<T>,
    seat: &mut Seat<T>,
    column: &Column,
    bucket: u32,
) -> Option<Entry>
    requires of { IsOf shared.now seat.old }
    requires column { IsPlaced (T.rules shared.now.truth) column.now.budget column.now.x column.now.bottom }
    requires bucket { bucket ≤ (T.rules shared.now.truth).grain }
    ensures of { IsOf shared.now seat.new }
    ensures value { IfSome result (λ entry. entry ≡ entry_by (optimum (T.rules shared.now.truth) column.now.budget
        (at_bucket column.now.x bucket))) }
    ensures still { StillSees seat.old.view seat.new.view }
{
    let place = index_at(shared, column, bucket);
    shared.load(seat, place)
}

// Puts the entry of a bucket of a column.
pub(crate) fn tell<T: Bound>(
    shared: &Shared<T>,
    seat: &mut Seat<T>,
    column: &Column,
    bucket: u32,
    entry: Entry,
)
    requires of { IsOf shared.now seat.old }
    requires column { IsPlaced (T.rules shared.now.truth) column.now.budget column.now.x column.now.bottom }
    requires bucket { bucket ≤ (T.rules shared.now.truth).grain }
    requires entry { entry ≡ entry_by (optimum (T.rules shared.now.truth) column.now.budget (at_bucket column.now.x bucket)) }
    ensures of { IsOf shared.now seat.new }
    ensures seen { Contains seat.new.view.seen (index_of (T.rules shared.now.truth).grain column.now.budget
        (at_bucket column.now.x bucket)) }
    ensures still { StillSees seat.old.view seat.new.view }
{
    let place = index_at(shared, column, bucket);
    shared.put(seat, place, entry);
}
