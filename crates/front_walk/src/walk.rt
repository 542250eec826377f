// What is walked, and one level of it.
ghost use Rattle.std.specs.Prelude.{◌≡◌, true};
ghost use Rattle.std.specs.List.{All};
ghost use Rattle.prefix_fronts.specs.Prefix.{AreLimits, IsOpen};
ghost use Rattle.front_walk.specs.Nodes.{IsNode};

use crate::state_test::StateTest;
use craft_settings::Settings;
use craft_state::State;
use pareto_front::PackedNode;

/// A craft, a state of it that isn't over, the quality that the completions from there are to have, and a test that
/// keeps each state that can still lead to it.
#[derive(Drop)]
pub struct Walk<'a, T: StateTest> {
    pub g: &'a Settings,
    pub from: &'a State,
    pub target: u32,
    pub test: &'a T,
    ghost craft: { T.craft test.now ≡ g.now },
    ghost open: { IsOpen g.now from.now },
    ghost allowed: { T.allows test.now from.now ≡ true },
    ghost limits: { AreLimits g.now target (T.passes test.now) },
}

/// The nodes of a level, whose children are to pass with so many actions left.
#[derive(Drop)]
pub(crate) struct Stage<'a, T: StateTest> {
    pub(crate) walk: &'a Walk<'a, T>,
    pub(crate) left: u32,
    pub(crate) nodes: &'a [PackedNode],
    ghost all: { All (IsNode walk.now.g.now (T.allows walk.now.test.now)) nodes.now },
}
