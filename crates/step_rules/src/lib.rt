//! The rules of a craft: which actions are legal, and what each does.
#![tactic(auto)]

mod changes;
pub mod laws;
mod legality;
mod run;

pub use changes::step;
pub use legality::{Illegal, MOST_STEPS, check, counted, is_complete, is_final, legal, start};
pub use run::{Stop, replay};

#[cfg(test)]
mod tests;
