//! Shared words as a pure machine: what each atomic step does to a word and to what its seat knows.
#![tactic(auto)]

mod entry;
mod event;
mod machine;
mod seat;
#[cfg(test)]
mod tests;
mod truth;
mod view;

pub use entry::{Entry, quality_of_mark};
pub use event::Event;
pub use machine::Core;
pub use truth::Truth;
pub use view::View;
