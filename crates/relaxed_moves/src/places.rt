ghost use Rattle.std.specs.Prelude.{ℕ, ◌≡◌, ◌≤◌, ◌<◌, ◌+◌};
ghost use Rattle.relaxed_moves.specs.Budget.{start_potential_of};
ghost use Rattle.relaxed_moves.specs.Columns.{at_bucket};
ghost use Rattle.relaxed_moves.specs.Moves.{RelaxedFields, AreRelaxed};
ghost use Rattle.relaxed_moves.specs.Places.{place_count, quality_size_of, step_size_of, index_of, first_at, state_at};

use crate::budget::start_potential;
use crate::kinds::Relaxed;
use craft_settings::Settings;

/// The greatest budget of a quality table, in CP.
pub const MOST_BUDGET: u32 = 1378;

/// The greatest number of moves of the step table.
pub const MOST_MOVES: u32 = 63;

/// The number of relaxed states with one bucket: 11 counts of stacks, 5 steps each of Innovation and Veneration, and
/// two effects that are on or off.
pub const BUCKET_STATES: usize = 1100;

/// The number of places of the quality table, whose first number is a budget up to `start_potential`.
#[tactic(auto, using(crate::proofs::Indices::indices))]
pub fn quality_size(g: &Settings, grain: u32) -> usize
    requires low { 1 ≤ grain }
    requires high { grain ≤ 64 }
    ensures value { result ≡ quality_size_of g.now grain }
    ensures high { result ≤ 98598500 }
{
    let budget = start_potential(g) as usize;
    let buckets = grain as usize + 1;
    (budget * buckets + buckets) * BUCKET_STATES
}

/// The number of places of the step table, whose first number is a number of moves up to `MOST_MOVES`.
pub fn step_size(grain: u32) -> usize
    requires low { 1 ≤ grain }
    requires high { grain ≤ 64 }
    ensures value { result ≡ step_size_of grain }
    ensures high { result ≤ 4576000 }
{
    (MOST_MOVES as usize + 1) * (grain as usize + 1) * BUCKET_STATES
}

/// The place of a relaxed state in a table, beside a budget of at most `MOST_BUDGET` or a number of moves.
pub fn index(grain: u32, first: u32, x: &Relaxed) -> usize
    requires low { 1 ≤ grain }
    requires high { grain ≤ 64 }
    requires first { first ≤ MOST_BUDGET }
    requires bucket { x.now.bucket ≤ grain }
    ensures value { result ≡ index_of grain first x.now }
    ensures below { result < place_count grain (first + 1) }
    ensures first { first_at grain result ≡ first }
    ensures state { state_at grain result ≡ x.now }
{
    place(grain, first, x)
}

// The same, without the way back, and with the bounds that it rests on.
#[tactic(auto, using(crate::proofs::Indices::indices))]
fn place(grain: u32, first: u32, x: &Relaxed) -> usize
    requires low { 1 ≤ grain }
    requires high { grain ≤ 64 }
    requires first { first ≤ MOST_BUDGET }
    requires bucket { x.now.bucket ≤ grain }
    ensures value { result ≡ index_of grain first x.now }
    ensures below { result < place_count grain (first + 1) }
    ensures bounds { AreRelaxed x.now }
{
    let outer = first as usize * (grain as usize + 1) + x.bucket as usize;
    let place = (outer * 11 + x.iq as usize) * 5 + x.innovation as usize;
    ((place * 5 + x.veneration as usize) * 2 + x.strides as usize) * 2 + x.muscle as usize
}

/// The relaxed state of a bucket, with the effects of another.
pub fn at_bucket(x: &Relaxed, bucket: u32) -> Relaxed
    ensures value { result ≡ at_bucket x.now bucket }
    ensures bounds { AreRelaxed result }
{
    Relaxed { bucket, ..*x }
}

/// The place of bucket 0 of a column: of a budget of at most `MOST_BUDGET` or a number of moves, and the effects of `x`.
pub fn column_place(grain: u32, first: u32, x: &Relaxed) -> usize
    requires low { 1 ≤ grain }
    requires high { grain ≤ 64 }
    requires first { first ≤ MOST_BUDGET }
    ensures { result ≡ index_of grain first (at_bucket x.now 0) }
{
    index(grain, first, &at_bucket(x, 0))
}

/// The place of a bucket of a column, from that of bucket 0.
pub fn bucket_place(grain: u32, first: u32, x: &Relaxed, bottom: usize, bucket: u32) -> usize
    requires low { 1 ≤ grain }
    requires high { grain ≤ 64 }
    requires first { first ≤ MOST_BUDGET }
    requires bottom { bottom ≡ index_of grain first (at_bucket x.now 0) }
    requires bucket { bucket ≤ grain }
    ensures value { result ≡ index_of grain first (at_bucket x.now bucket) }
    ensures below { result < place_count grain (first + 1) }
    ensures first { first_at grain result ≡ first }
    ensures state { state_at grain result ≡ at_bucket x.now bucket }
{
    let _iq = x.iq;
    bottom + bucket as usize * BUCKET_STATES
}

/// The budget or number of moves, and the relaxed state, that a place stands for.
pub fn of_index(grain: u32, index: usize) -> (u32, Relaxed)
    requires low { 1 ≤ grain }
    requires high { grain ≤ 64 }
    requires below { index < place_count grain (MOST_BUDGET + 1) }
    ensures first_value { result.0 ≡ first_at grain index }
    ensures state_value { result.1 ≡ state_at grain index }
    ensures first { result.0 ≤ MOST_BUDGET }
    ensures bucket { result.1.bucket ≤ grain }
    ensures back { index_of grain result.0 result.1 ≡ index }
    ensures only { (first : ℕ) (x : RelaxedFields) → AreRelaxed x → x.bucket ≤ grain → index_of grain first x ≡ index →
        (first ≡ result.0) × (x ≡ result.1) }
{
    parts(grain, index)
}

// The same, without the way back, and with the bounds that it rests on.
#[tactic(auto, using(crate::proofs::Indices::indices), unfolding(crate::specs::Places::state_at))]
fn parts(grain: u32, index: usize) -> (u32, Relaxed)
    requires low { 1 ≤ grain }
    requires high { grain ≤ 64 }
    requires below { index < place_count grain (MOST_BUDGET + 1) }
    ensures first_value { result.0 ≡ first_at grain index }
    ensures state_value { result.1 ≡ state_at grain index }
    ensures first { result.0 ≤ MOST_BUDGET }
    ensures bucket { result.1.bucket ≤ grain }
    ensures bounds { AreRelaxed result.1 }
{
    let buckets = grain as usize + 1;
    let outer = index / BUCKET_STATES;
    let inner = index % BUCKET_STATES;
    let x = Relaxed {
        bucket: (outer % buckets) as u32,
        iq: (inner / 100) as u32,
        innovation: (inner / 20 % 5) as u32,
        veneration: (inner / 4 % 5) as u32,
        strides: inner / 2 % 2 == 1,
        muscle: inner % 2 == 1,
    };
    ((outer / buckets) as u32, x)
}
