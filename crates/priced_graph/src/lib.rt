//! The graph of a craft: what priced bounds can see of its states, and the moves between that, for a table of walks.
//!
//! Only effects that the craft's allowed actions can lead to are seen, and a combo of moves is one edge, so that a table
//! has no columns for combos.
#![tactic(auto)]

mod graph;
pub mod laws;
mod numbers;
mod sights;

pub use graph::graph_of;
pub use numbers::SightNumbers;
pub use sights::Sights;

#[cfg(test)]
mod tests;
