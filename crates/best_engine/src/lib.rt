//! The whole of a run that finds the best macro alone: settings come in, and the text of the best macro goes out.
#![tactic(auto)]

mod best;
mod top;

pub use run_io::Status;
pub use top::run;

#[cfg(test)]
mod tests;
