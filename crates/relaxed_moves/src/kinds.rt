use std::marker::Model;

/// A state as the bounds see it: what is left to do, and the effects that raise gains.
#[derive(Clone, Copy, PartialEq, Eq, Hash, Debug)]
pub struct Relaxed {
    /// The progress that is left, in whole units of the grain.
    pub bucket: u32,
    /// Stacks of Inner Quiet, 0 to 10.
    pub iq: u32,
    /// Steps of Innovation, 0 to 4.
    pub innovation: u32,
    /// Steps of Veneration, 0 to 4.
    pub veneration: u32,
    /// Whether Great Strides waits for a touch.
    pub strides: bool,
    /// Whether Muscle Memory waits for progress.
    pub muscle: bool,
}

impl Model for Relaxed {
    ghost use Rattle.relaxed_moves.specs.Moves.{RelaxedFields, AreRelaxed};

    ghost Value = { RelaxedFields };

    ghost use Rattle.relaxed_moves.specs.Inside.{relaxed_fields, relaxed_inside};

    ghost view = { relaxed_fields };

    ghost invariant = { λ x. AreRelaxed (relaxed_fields x) };

    ghost inverse = { relaxed_inside };
}

/// What means are worth in CP.
#[derive(Clone, Copy, PartialEq, Eq, Hash, Debug)]
pub struct Weights {
    /// Five points of durability.
    pub rho: u32,
    /// A step of Waste Not.
    pub sigma: u32,
    /// What the last action may overdraw.
    pub slack: u32,
}
