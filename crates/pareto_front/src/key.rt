ghost use Rattle.std.specs.Prelude.{◌≡◌};
ghost use Rattle.craft_state.specs.Craft.{AreEffects};
ghost use Rattle.pareto_front.specs.Keys.{key_of};

use craft_state::State;

/// Progress and effects of a state as one number, which is quickly hashed and compared. Two states
/// have the same number exactly where both are equal.
#[tactic(auto, unfolding(crate::specs::Keys::key_of))]
pub(crate) fn key_of(state: &State) -> u64
    ensures value { result ≡ key_of state.now }
    ensures bounds { AreEffects state.now.effects }
{
    let effects = &state.effects;
    let _bounds = effects.iq;
    ((state.progress as u64) << 28) + effects.pack()
}
