//! What a craft can still reach at most, by tables that are filled before they are asked.
//!
//! Prices and units are chosen for a craft, the walks of its graph fill a table, and a state is asked for with so many
//! steps left. A table that doesn't tell of a state lets it through, so that each is a test of any state of the craft.
#![tactic(auto)]

mod bound;
mod choices;
mod filling;
pub mod laws;
mod reckoning;
mod several;

pub use bound::PricedBound;
pub use choices::Pricing;
pub use reckoning::{MOST_LEFT, MOST_NEED, MOST_PROMISE, Reckoning};
pub use several::all_reach;

#[cfg(test)]
mod macro_tests;
#[cfg(test)]
mod tests;
