use craft_settings::Settings;
use craft_state::Combo;
use std::marker::Model;

/// What means are worth, in small parts of which `coin` make one of a budget: prices and worths are added up in parts
/// and then cut to whole coins.
#[derive(Clone, Copy, PartialEq, Eq, Hash, Debug)]
pub struct Prices {
    /// A point of CP.
    pub cp: u32,
    /// Five points of durability.
    pub five: u32,
    /// A step of Waste Not.
    pub waste: u32,
    /// A step.
    pub step: u32,
    /// The parts that make one of a budget, 1 or more.
    pub coin: u32,
}

/// In what units progress and quality are counted, each rounded up.
#[derive(Clone, Copy, PartialEq, Eq, Hash, Debug)]
pub struct Units {
    /// A unit of progress is `progress` points, 1 or more, divided by `share`, 10000 or less.
    pub progress: u32,
    pub share: u32,
    /// A unit of quality is so many points, 1 or more.
    pub quality: u32,
}

/// A state as the priced bounds see it: what is left to do, and the effects that change gains and prices.
#[derive(Clone, Copy, PartialEq, Eq, Hash, Debug)]
pub struct Seen {
    /// The progress that is left, in units, rounded up.
    pub need: u32,
    /// Stacks of Inner Quiet, 0 to 10.
    pub iq: u32,
    /// Steps of Innovation, 0 to 4.
    pub innovation: u32,
    /// Steps of Veneration, 0 to 4.
    pub veneration: u32,
    /// Whether Great Strides waits for a touch.
    pub strides: bool,
    /// Whether Muscle Memory waits for progress.
    pub muscle: bool,
    /// The combo that the next action may go on from.
    pub combo: Combo,
    /// Whether progress was begun where all touches come first.
    pub begun: bool,
}

impl Model for Seen {
    ghost use Rattle.priced_moves.specs.Moves.{SeenFields, AreSeen};

    ghost Value = { SeenFields };

    ghost use Rattle.priced_moves.specs.Inside.{seen_fields, seen_inside};

    ghost view = { seen_fields };

    ghost invariant = { λ x. AreSeen (seen_fields x) };

    ghost inverse = { seen_inside };
}

/// An edge of a table: a move or a combo of moves.
#[derive(Clone, Copy, PartialEq, Eq, Debug)]
pub struct Edge {
    /// What it costs of the budget.
    pub cost: u32,
    /// The units of quality that it gains.
    pub gain: u32,
    /// The units of progress that it takes off.
    pub shift: u32,
    /// What is seen there, without a combo and with nothing to do.
    pub to: Seen,
}

// A list of moves that was walked: what it costs and gains, by how much it shifts the need, and where it stands.
#[derive(Clone, Copy)]
pub(crate) struct Trail {
    pub(crate) cost: u32,
    pub(crate) gain: u32,
    pub(crate) shift: u32,
    pub(crate) at: Seen,
}

// The prices, the craft and the units by which moves are walked.
#[derive(Clone, Copy)]
pub(crate) struct Terms {
    pub(crate) prices: Prices,
    pub(crate) settings: Settings,
    pub(crate) units: Units,
}
