//! What a craft can still reach at most, without order, combos and durability.
#![tactic(auto)]

mod budget;
mod kinds;
pub mod laws;
mod moves;
mod places;
mod scales;

pub use budget::{move_cost, move_cost_by, potential, potential_by, start_potential, weights};
pub use kinds::{Relaxed, Weights};
pub use moves::{is_listed, is_move, move_gain, move_on, move_on_by, relax, relax_by, unit};
pub use places::{
    BUCKET_STATES, MOST_BUDGET, MOST_MOVES, at_bucket, bucket_place, column_place, index, of_index,
    quality_size, step_size,
};
pub use scales::Scale;

#[cfg(test)]
mod tests;
