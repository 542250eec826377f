ghost use Rattle.std.specs.Prelude.{◌≡◌, ◌≤◌, ◌<◌, ◌+◌, ◌-◌, ◌*◌, ◌^◌};

use crate::choices::{Pricing, prices_of, units_of};
use craft_settings::Settings;
use craft_state::State;
use priced_graph::Sights;
use priced_moves::{Prices, Units, worth};
use std::marker::Model;

/// The most units that the progress of a craft takes.
pub const MOST_NEED: u32 = 349;

/// The most steps left of which a table tells.
pub const MOST_LEFT: u32 = 300;

/// The most quality that a table promises, far more than any craft counts.
pub const MOST_PROMISE: u32 = 1_000_000_000;

/// By what prices and in what units a craft is reckoned.
#[derive(Clone, Copy, PartialEq, Eq, Debug)]
pub struct Reckoning {
    pub(crate) settings: Settings,
    pub(crate) prices: Prices,
    pub(crate) units: Units,
}

impl Model for Reckoning {
    ghost use Rattle.priced_bound.specs.Reckoned.{ReckoningFields, AreReckoned};

    ghost Value = { ReckoningFields };

    ghost use Rattle.priced_bound.specs.Inside.{reckoning_fields, reckoning_inside};

    ghost view = { reckoning_fields };

    ghost invariant = { λ r. AreReckoned (reckoning_fields r) };

    ghost inverse = { reckoning_inside };
}

impl Reckoning {
    ghost use Rattle.priced_graph.specs.Sights.{sights_of, node_count};
    ghost use Rattle.priced_moves.specs.Moves.{progress_units};
    ghost use Rattle.priced_moves.specs.Prices.{worth_of};
    ghost use Rattle.priced_bound.specs.Choices.{ArePricesOf, AreUnitsOf};
    ghost use Rattle.priced_bound.specs.Reckoned.{AreReckoned, need_of, words_of};

    /// The prices that are asked for, and units of which the craft's progress takes at most `most_need`, 1 to
    /// `MOST_NEED`. With fewer units a table takes fewer words and tells less.
    pub fn new(g: &Settings, pricing: Pricing, most_need: u32) -> Reckoning
        requires low { 1 ≤ most_need }
        requires high { most_need ≤ MOST_NEED }
        ensures g { result.g ≡ g.now }
        ensures prices { ArePricesOf g.now pricing result.prices }
        ensures units { AreUnitsOf g.now most_need result.units }
        ensures reckoned { AreReckoned result }
    {
        let _level = g.level;
        Reckoning {
            settings: *g,
            prices: prices_of(g, pricing),
            units: units_of(g, most_need),
        }
    }

    /// What the means of a state are worth with so many steps left, at most `MOST_LEFT`. No state to which legal steps
    /// lead from here within as many steps is worth more with what is then left.
    pub fn worth(&self, s: &State, left: u32) -> u32
        requires { left ≤ MOST_LEFT }
        ensures { result ≡ worth_of self.now.prices s.now left }
    {
        worth(&self.prices, s, left)
    }

    /// How many words, of two bytes each, a table takes whose greatest budget is `top`.
    pub fn words(&self, top: u32) -> u64
        ensures { result ≡ words_of self.now top }
    {
        let nodes = Sights::of(&self.settings).nodes() as u64;
        (top as u64 + 1) * (nodes * (self.need() as u64 + 1))
    }

    // The units of progress that the craft takes.
    pub(crate) fn need(&self) -> u32
        ensures value { result ≡ need_of self.now }
        ensures high { result ≤ MOST_NEED }
    {
        self.need_after(0)
    }

    // The units of progress that are left after so many points.
    pub(crate) fn need_after(&self, points: u32) -> u32
        requires { points ≤ self.now.g.progress }
        ensures value { result ≡ progress_units self.now.units (self.now.g.progress - points) }
        ensures high { result ≤ MOST_NEED }
    {
        let left = (self.points() - points) as u64 * self.units.share as u64;
        left.div_ceil(self.units.progress as u64) as u32
    }

    // The points of progress that the craft takes.
    pub(crate) fn points(&self) -> u32
        ensures value { result ≡ self.now.g.progress }
        ensures high { result ≤ 100000 }
    {
        let g = &self.settings;
        g.progress
    }
}
