// What a search looks for.
ghost use Rattle.std.specs.Prelude.{◌≡◌, ◌≤◌};
ghost use Rattle.step_rules.specs.Legality.{IsWithin};
ghost use Rattle.relaxed_moves.specs.Budget.{potential_of, start_potential_of};
ghost use Rattle.relaxed_moves.specs.Optimum.{is_enough};
ghost use Rattle.relaxed_moves.specs.Scales.{IsScale};
ghost use Rattle.level_search.specs.Reaching.{bounds_reach};
ghost use Rattle.level_search.specs.Searching.{IsSearcherOf, StillSearches, HasSeen};

use crate::searcher::Searcher;
use craft_settings::Settings;
use craft_state::State;
use front_walk::StateTest;
use quality_bound::{QualityTruth, limit_by};
use relaxed_moves::{MOST_MOVES, Scale, potential, relax};
use seat_tables::Shared;
use step_bound::{StepTruth, within_by};

/// The quality that is looked for in a craft, the tables of the bounds that tell which states may still lead to it,
/// and the craft's scale, which is made once.
#[derive(Clone, Copy)]
pub(crate) struct Aim<'a> {
    pub(crate) g: &'a Settings,
    pub(crate) grain: u32,
    pub(crate) target: u32,
    pub(crate) quality: &'a Shared<QualityTruth>,
    pub(crate) steps: &'a Shared<StepTruth>,
    pub(crate) scale: Scale,
    ghost quality_craft: { quality.now.truth.g ≡ g.now },
    ghost quality_grain: { quality.now.truth.grain ≡ grain },
    ghost steps_craft: { steps.now.truth.g ≡ g.now },
    ghost steps_grain: { steps.now.truth.grain ≡ grain },
    ghost scales: { IsScale g.now grain scale },
}

impl StateTest for Aim<'_> {
    ghost use Rattle.std.specs.Prelude.{nat_le};
    ghost use Rattle.level_search.specs.Laws.{potential_stays, same_searches, later_searches};

    type Asker = Searcher;

    ghost craft = { λ t. t.g.now };

    ghost passes = { λ t. bounds_reach t.g.now t.grain t.target };

    ghost allows = { λ t s. nat_le (potential_of t.g.now s) (start_potential_of t.g.now) };

    ghost may_ask = { λ t. IsSearcherOf t.quality.now t.steps.now };

    ghost still_asks = { StillSearches };

    fn passes(&self, asker: &mut Searcher, left: u32, s: &State) -> bool {
        self.bounds_reach(asker, left, s)
    }

    ghost goes_on_allowed = { λ t. potential_stays t.g.now };

    ghost same_asks = { same_searches };

    ghost later_asks = { later_searches };
}

impl Aim<'_> {
    // Whether a state may still lead to the target with so many actions left: before the first step always. The bound by
    // steps is asked first, since its table is small.
    #[tactic(auto, unfolding(crate::specs::Reaching::bounds_reach))]
    fn bounds_reach(&self, searcher: &mut Searcher, left: u32, s: &State) -> bool
        requires of { IsSearcherOf self.now.quality.now self.now.steps.now searcher.old }
        requires within { IsWithin self.now.g.now s.now }
        requires potential { potential_of self.now.g.now s.now ≤ start_potential_of self.now.g.now }
        ensures of { IsSearcherOf self.now.quality.now self.now.steps.now searcher.new }
        ensures still { StillSearches searcher.old searcher.new }
        ensures value { result ≡ bounds_reach self.now.g.now self.now.grain self.now.target left s.now }
    {
        s.effects.first
            || self.is_enough(within_by(self.steps, &mut searcher.steps, &self.scale, s, left))
                && self.is_enough(limit_by(self.quality, &mut searcher.quality, &self.scale, s))
    }

    // Whether a bound isn't below the target.
    fn is_enough(&self, most: Option<u32>) -> bool
        ensures { result ≡ is_enough self.now.target most }
    {
        match most {
            None => false,
            Some(most) => self.target <= most,
        }
    }

    /// Asks for both bounds of a state, so that the searcher has seen them.
    pub(crate) fn ask(&self, searcher: &mut Searcher, left: u32, s: &State)
        requires of { IsSearcherOf self.now.quality.now self.now.steps.now searcher.old }
        requires within { IsWithin self.now.g.now s.now }
        requires potential { potential_of self.now.g.now s.now ≤ start_potential_of self.now.g.now }
        ensures of { IsSearcherOf self.now.quality.now self.now.steps.now searcher.new }
        ensures still { StillSearches searcher.old searcher.new }
        ensures seen { HasSeen self.now.g.now self.now.grain left s.now searcher.new }
    {
        let x = relax(self.g, self.grain, s);
        let budget = potential(self.g, s);
        let _ = quality_bound::ask(self.quality, &mut searcher.quality, budget, &x);
        if left <= MOST_MOVES {
            let _ = step_bound::ask(self.steps, &mut searcher.steps, left, &x);
        }
    }
}
