//! Budget bounds: the quality that a craft can still gain with its means, kept in a shared table.
#![tactic(auto)]

mod asks;
mod fills;
#[cfg(test)]
mod tests;
mod truth;

pub use asks::{ask, limit, limit_by};
pub use fills::{fill_budget, fill_column};
pub use truth::QualityTruth;
