// The order in which states are looked at.
ghost use Rattle.std.specs.Prelude.{◌≡◌, ◌<◌, ◌≤◌};
ghost use Rattle.craft_state.specs.Craft.{IsState, AreEffects};
ghost use Rattle.step_rules.specs.Measure.{measure};
ghost use Rattle.quality_sweep.specs.Places.{place_of, places_of};

use craft_settings::Settings;
use craft_state::{Perfection, State};

/// How many places a window has: the measure of a state is at most 1120.
pub(crate) const DEPTH: usize = 281;

// How many windows there are at most.
const MOST_WINDOWS: u32 = 64;

/// How much progress a window spans: as much as each synthesis gains at least, or more, so that there aren't too many.
pub(crate) fn width_of(g: &Settings) -> u32
    ensures { 1 ≤ result }
{
    g.base_progress.max(g.progress / MOST_WINDOWS + 1)
}

/// The number that each step lowers by at least 4.
pub(crate) fn measure(s: &State) -> u32
    ensures value { result ≡ measure s.now }
    ensures most { result ≤ 1120 }
{
    let worth = match s.effects.perfection {
        Perfection::Ready => 8,
        Perfection::On => 4,
        Perfection::Spent => 0,
    };
    s.cp + 4 * (s.durability / 5) + 4 * s.effects.manipulation + worth
}

/// The place of a state.
pub(crate) fn place_of(width: u32, s: &State) -> usize
    requires { 1 ≤ width }
    ensures { result ≡ place_of width s.now }
{
    (s.progress / width) as usize * DEPTH + (DEPTH - 1 - (measure(s) / 4) as usize)
}

/// How many places the states of a craft have.
pub(crate) fn places_of(width: u32, g: &Settings) -> usize
    requires { 1 ≤ width }
    ensures { result ≡ places_of width g.now }
{
    (g.progress / width + 1) as usize * DEPTH
}
