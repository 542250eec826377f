//! The dominance law: what a state that is not less than another can do, and what follows for the
//! prefixes of macros.

pub use dominance::child_law;
pub use prefix_fronts::{child_dominated_law, dominated_law};
