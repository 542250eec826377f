//! The checker of certificates: it judges each line of a text by the rules of a craft and by the two limits alone.
#![tactic(auto)]

mod ahead;
mod checker;
mod heading;
mod judge;
mod kept;
mod level;
mod levels;
mod limits;
mod naming;
mod opening;
mod row;
mod tables;
#[cfg(test)]
mod tests;

pub use checker::{CertFault, MOST_TEXT, verify};
pub use judge::{Claimed, covers, is_at_most, is_below};
pub use limits::Limits;
pub use naming::print_best;
pub use tables::Tables;
