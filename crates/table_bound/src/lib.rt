//! Bounds on what a craft can still gain, kept in a shared table. Both tables, over budgets and over numbers of
//! moves, are asked and filled by the same calls.
#![tactic(auto)]

mod asks;
mod bound;
mod columns;
mod limits;
mod rows;
mod turns;
mod words;

pub use asks::ask;
pub use bound::Bound;
pub use columns::{MOST_BUCKETS, fill_column};
pub use limits::limit_within;
