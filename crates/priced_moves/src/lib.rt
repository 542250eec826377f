//! What a craft can still reach at most, by given prices of CP, durability, Waste Not and steps.
//!
//! A bound by the budget alone is one whose steps are free, and a bound by the number of moves alone is one whose CP and
//! durability are: both are special prices of this one, in all but how they round progress to buckets.
#![tactic(auto)]

mod bound;
mod graph;
mod kinds;
pub mod laws;
mod moves;
mod prices;

pub use bound::limit;
pub use graph::{combo_edges, edges};
pub use kinds::{Edge, Prices, Seen, Units};
pub use moves::{gain, is_listed, is_move, move_on, seen, shift};
pub use prices::{price, worth};

#[cfg(test)]
mod tests;
