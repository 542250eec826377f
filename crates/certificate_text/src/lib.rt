//! The text of certificates: what its lines are, and how numbers, verdicts and rows of verdicts are read.
#![tactic(auto)]

mod cuts;
mod numbers;
#[cfg(test)]
mod tests;
mod verdict;
mod words;

pub use cuts::end_of;
pub use numbers::{MOST_NUMBER, read_number};
pub use verdict::Verdict;
pub use words::{read_row, read_word};
