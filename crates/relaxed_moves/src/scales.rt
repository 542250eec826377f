ghost use Rattle.std.specs.Prelude.{◌≤◌};
ghost use Rattle.relaxed_moves.specs.Scales.{IsScale};

use crate::budget::weights;
use crate::kinds::Weights;
use crate::moves::unit;
use craft_settings::Settings;

/// What a search needs of a craft and a grain for each of its states: the weights, and the progress of a bucket.
#[derive(Clone, Copy, PartialEq, Eq, Hash, Debug)]
pub struct Scale {
    pub weights: Weights,
    /// The progress of a bucket.
    pub unit: u32,
}

impl Scale {
    /// The scale of a craft and a grain from 1 to 64.
    pub fn new(g: &Settings, grain: u32) -> Scale
        requires low { 1 ≤ grain }
        requires high { grain ≤ 64 }
        ensures { IsScale g.now grain result }
    {
        Scale {
            weights: weights(g),
            unit: unit(g, grain),
        }
    }
}
