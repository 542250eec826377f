// What waits to be expanded.
use craft_state::State;

/// An open state, what no completion from it exceeds, and the rank that a dive goes by.
#[derive(Clone, Copy, PartialEq, Eq, Debug)]
pub(crate) struct Candidate {
    pub(crate) state: State,
    pub(crate) limit: u32,
    pub(crate) rank: u32,
}
