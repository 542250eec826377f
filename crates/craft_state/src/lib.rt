//! The state of a craft.
#![tactic(auto)]

ghost use Rattle.std.specs.Prelude.{◌≡◌};

use std::marker::Model;

/// Which touch a combo continues.
#[derive(Clone, Copy, PartialEq, Eq, Hash, Debug)]
pub enum Combo {
    NoCombo,
    Basic,
    Standard,
}

/// Whether Trained Perfection can be used, is in force, or is used up.
#[derive(Clone, Copy, PartialEq, Eq, Hash, Debug)]
pub enum Perfection {
    Ready,
    On,
    Spent,
}

/// The effects that stand between two steps.
///
/// `iq` counts the stacks of Inner Quiet, 0 to 10. `waste` (0 to 8), `innovation` and `veneration` (0 to 4),
/// `strides` (0 to 3), `muscle` (0 to 5) and `manipulation` (0 to 8) count the steps that an effect still lasts.
/// `first` is true before the first step alone.
#[derive(Clone, Copy, PartialEq, Eq, Hash, Debug)]
pub struct Effects {
    pub iq: u32,
    pub waste: u32,
    pub innovation: u32,
    pub veneration: u32,
    pub strides: u32,
    pub muscle: u32,
    pub manipulation: u32,
    pub combo: Combo,
    pub perfection: Perfection,
    pub first: bool,
}

impl Model for Effects {
    ghost use Rattle.craft_state.specs.Craft.{EffectFields, AreEffects};

    ghost Value = { EffectFields };

    ghost use Rattle.craft_state.specs.Inside.{effect_fields, effects_inside};

    ghost view = { effect_fields };

    ghost invariant = { λ e. AreEffects (effect_fields e) };

    ghost inverse = { effects_inside };
}

/// A craft between two steps: what is left of CP (at most 1000) and durability (at most 100, a multiple of 5), and
/// what there is of progress and quality (each at most 100000).
#[derive(Clone, Copy, PartialEq, Eq, Hash, Debug)]
pub struct State {
    pub cp: u32,
    pub durability: u32,
    pub progress: u32,
    pub quality: u32,
    pub effects: Effects,
}

impl Model for State {
    ghost use Rattle.craft_state.specs.Craft.{StateFields, IsState};

    ghost Value = { StateFields };

    ghost use Rattle.craft_state.specs.Inside.{state_fields, state_inside};

    ghost view = { state_fields };

    ghost invariant = { λ s. IsState (state_fields s) };

    ghost inverse = { state_inside };
}

impl Effects {
    ghost use Rattle.craft_state.specs.Pack.{pack_of};
    ghost use Rattle.craft_state.specs.Craft.{EffectFields, AreEffects};

    /// The fields one after another as bits, from the lowest: `iq` 4 bits, `waste` 4, `innovation` 3, `veneration` 3,
    /// `strides` 2, `muscle` 3, `manipulation` 4, `combo` 2, `perfection` 2, `first` 1.
    pub fn pack(&self) -> u64
        ensures value { result ≡ pack_of self.now }
        ensures injective { (other : EffectFields) → AreEffects other → pack_of other ≡ result → other ≡ self.now }
    {
        self.iq as u64
            + ((self.waste as u64) << 4)
            + ((self.innovation as u64) << 8)
            + ((self.veneration as u64) << 11)
            + ((self.strides as u64) << 14)
            + ((self.muscle as u64) << 16)
            + ((self.manipulation as u64) << 19)
            + ((self.combo as u64) << 23)
            + ((self.perfection as u64) << 25)
            + ((self.first as u64) << 27)
    }
}

#[cfg(test)]
mod tests;
