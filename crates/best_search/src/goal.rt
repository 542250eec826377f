// What a search for the fewest actions starts from.
ghost use Rattle.std.specs.Prelude.{All};
ghost use Rattle.prefix_fronts.specs.Prefix.{IsGreatestFrom, IsOpen};
ghost use Rattle.best_search.specs.Looking.{IsTable};

use craft_settings::Settings;
use craft_state::State;
use priced_bound::PricedBound;

/// A craft from a state that isn't over, a quality of which no list that completes it has more, and the tables that are
/// filled already.
#[derive(Clone, Copy)]
pub(crate) struct Goal<'a> {
    pub(crate) g: &'a Settings,
    pub(crate) from: &'a State,
    pub(crate) target: u32,
    pub(crate) filled: &'a [PricedBound],
    ghost open: { IsOpen g.now from.now },
    ghost greatest: { IsGreatestFrom g.now from.now target },
    ghost tables: { All (IsTable g.now) filled.now },
}
