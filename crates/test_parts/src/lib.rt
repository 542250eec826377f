//! What the tests of several crates take: a gate at which two workers wait for each other, and words of a table of
//! bounds. Nothing but tests uses it.
#![tactic(auto)]

mod meeting;
#[cfg(test)]
mod tests;
mod words;

pub use meeting::{Flags, Meeting, TURNS, is_set_in_time};
pub use words::{Table, Word, say_drawn};
