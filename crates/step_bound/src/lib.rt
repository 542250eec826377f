//! Step bounds: the quality that a craft can still gain in so many steps, kept in a shared table.
#![tactic(auto)]

mod asks;
#[cfg(test)]
mod tests;
mod truth;

pub use asks::{ask, within, within_by};
pub use truth::StepTruth;
