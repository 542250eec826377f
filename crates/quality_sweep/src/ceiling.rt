// What bounds the quality.
use craft_state::State;

/// A ceiling over the quality that a craft can still reach from its states, as a filled table. Workers may share it.
pub trait Ceiling: Sync {
    ghost use Rattle.std.specs.Prelude.{◌≡◌, ℕ, Option};
    ghost use Rattle.craft_state.specs.Craft.{StateFields};

    /// Which states it may be asked of.
    ghost allows: { Self → StateFields → Type 0 };

    /// Over the quality of each list that completes the craft from a state, and none where no list completes it.
    ghost limit_of: { Self → StateFields → Option ℕ };

    /// The limit of a state.
    fn limit(&self, s: &State) -> Option<u32>
        requires { allows self.now s.now }
        ensures { result ≡ limit_of self.now s.now };

    /// How much a state promises, where a dive can't keep all: those of more rank are kept before those of less. `limit` is
    /// what `limit` answered for the state. Any number is right, since it only says where a dive looks.
    fn rank(&self, s: &State, limit: u32) -> u32
        requires { allows self.now s.now };
}
