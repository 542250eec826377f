use action_table::Action;
use craft_state::State;

/// A state of a level, the seconds that led to it, the place of its parent in the level before,
/// and the action that led from there.
#[derive(Clone, Copy, PartialEq, Eq, Debug)]
pub struct Node {
    pub state: State,
    pub seconds: u32,
    pub parent: usize,
    pub action: Action,
}
