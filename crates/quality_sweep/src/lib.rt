//! The greatest quality that a craft can still reach from a state, over any ceiling.
#![tactic(auto)]

mod above;
mod candidate;
mod ceiling;
mod descent;
mod dive;
mod expand;
mod outlook;
mod places;
mod quality;
mod shelves;
#[cfg(test)]
mod tests;

pub use ceiling::Ceiling;
pub use descent::greatest_from;
pub use dive::quick_from;
pub use outlook::Outlook;
