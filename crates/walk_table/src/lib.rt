//! The greatest gains over walks in a small graph, for each budget, node and need.
#![tactic(auto)]

mod filling;
mod graph;
mod kernels;
mod pieces;
mod table;
#[cfg(test)]
mod tests;

pub use graph::{Edge, Graph};
pub use table::{Limits, WalkTable};
