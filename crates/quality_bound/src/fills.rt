// Whole columns and whole budgets of the quality table.
ghost use Rattle.std.specs.Prelude.{◌≡◌, ℕ, ◌+◌, ◌<◌, ◌≤◌, length, slice_index, All, slice_index_or};
ghost use Rattle.seat_tables.specs.Seats.{IsOf, StillSees, SeatFields};
ghost use Rattle.worker_gate.specs.Cut.{cut};
ghost use Rattle.relaxed_moves.specs.Budget.{start_potential_of};
ghost use Rattle.relaxed_moves.specs.Columns.{coded, at_bucket};
ghost use Rattle.relaxed_moves.specs.Optimum.{opt};
ghost use Rattle.relaxed_moves.specs.Places.{state_at};
ghost use Rattle.quality_bound.specs.declared.truth.QualityTruth.{QualityTruth};
ghost use Rattle.quality_bound.specs.Seen.{SeesEffects};

use crate::truth::QualityTruth;
use relaxed_moves::{BUCKET_STATES, of_index};
use seat_tables::{Seat, Shared};
use std::thread::Threads;
use table_bound::MOST_BUCKETS;
use worker_gate::{Gate, each, range_of};

/// Fills the column of a budget, at most the potential of the start, and an effects number below `BUCKET_STATES`, which
/// is an index modulo it. The number of each bucket in `row`, which has one more than the grain, becomes 0 where no list
/// of relaxed moves does all the progress within the budget, else 1 + the greatest gain. The seat has then seen the
/// indices of the column. No memory is taken, and nobody is waited for.
pub fn fill_column(
    shared: &Shared<QualityTruth>,
    seat: &mut Seat<QualityTruth>,
    beta: u32,
    effects: usize,
    row: &mut [u32],
)
    requires of { IsOf shared.now seat.old }
    requires beta { beta ≤ start_potential_of shared.now.truth.g }
    requires effects { effects < BUCKET_STATES }
    requires row { length row.old ≡ shared.now.truth.grain + 1 }
    ensures of { IsOf shared.now seat.new }
    ensures row { (bucket : ℕ) → bucket ≤ shared.now.truth.grain →
        slice_index row.new bucket ≡ coded (opt shared.now.truth.g shared.now.truth.grain beta
        (at_bucket (state_at shared.now.truth.grain effects) bucket)) }
    ensures seen { SeesEffects shared.now.truth.grain beta effects (effects + 1) seat.new.view }
    ensures still { StillSees seat.old.view seat.new.view }
{
    let truth = shared.truth();
    let (_, x) = of_index(truth.grain, effects);
    table_bound::fill_column(shared, seat, beta, &x, row);
}

// Fills one column.
fn fill_one(shared: &Shared<QualityTruth>, seat: &mut Seat<QualityTruth>, beta: u32, effects: usize)
    requires of { IsOf shared.now seat.old }
    requires beta { beta ≤ start_potential_of shared.now.truth.g }
    requires effects { effects < BUCKET_STATES }
    ensures of { IsOf shared.now seat.new }
    ensures seen { SeesEffects shared.now.truth.grain beta effects (effects + 1) seat.new.view }
    ensures still { StillSees seat.old.view seat.new.view }
{
    let truth = shared.truth();
    let buckets = truth.grain as usize + 1;
    let mut row = [0u32; MOST_BUCKETS];
    fill_column(shared, seat, beta, effects, &mut row[..buckets]);
}

// Fills the columns of some effects numbers.
fn fill_range(
    shared: &Shared<QualityTruth>,
    seat: &mut Seat<QualityTruth>,
    beta: u32,
    from: usize,
    to: usize,
)
    requires of { IsOf shared.now seat.old }
    requires beta { beta ≤ start_potential_of shared.now.truth.g }
    requires order { from ≤ to }
    requires within { to ≤ BUCKET_STATES }
    ensures of { IsOf shared.now seat.new }
    ensures seen { SeesEffects shared.now.truth.grain beta from to seat.new.view }
    ensures still { StillSees seat.old.view seat.new.view }
{
    for effects in from..to {
        fill_one(shared, seat, beta, effects);
    }
}

/// Fills the columns of a budget, at most the potential of the start, by 1 to 64 seats side by side. The effects
/// numbers are cut among the seats, and each seat has then seen the indices of its own. No memory is taken.
pub fn fill_budget<G: Gate>(
    rt: &(impl Threads + Sync),
    shared: &Shared<QualityTruth>,
    seats: &mut [Seat<QualityTruth>],
    gate: &G,
    beta: u32,
)
    requires low { 1 ≤ length seats.old }
    requires high { length seats.old ≤ 64 }
    requires of { All (IsOf shared.now) seats.old }
    requires beta { beta ≤ start_potential_of shared.now.truth.g }
    ensures of { All (IsOf shared.now) seats.new }
    ensures seen { (k : ℕ) (d : SeatFields QualityTruth) → k < length seats.old →
        SeesEffects shared.now.truth.grain beta (cut BUCKET_STATES (length seats.old) k) (cut BUCKET_STATES (length seats.old) (k + 1))
        (slice_index_or seats.new k d).view }
    ensures still { (k : ℕ) (d : SeatFields QualityTruth) → k < length seats.old →
        StillSees (slice_index_or seats.old k d).view (slice_index_or seats.new k d).view }
{
    let workers = seats.len() as u32;
    each(rt, seats, gate, |k, seat: &mut Seat<QualityTruth>| {
        let (from, to) = range_of(BUCKET_STATES, workers, k);
        fill_range(shared, seat, beta, from, to);
    });
}
