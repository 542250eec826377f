// The test of a search: which states may still lead to the quality that is looked for.
ghost use Rattle.std.specs.Prelude.{◌≡◌, All};
ghost use Rattle.std.specs.List.{list_any};
ghost use Rattle.action_table.specs.Table.{all_actions};
ghost use Rattle.front_walk.specs.Nodes.{goes_and_passes};
ghost use Rattle.best_search.specs.Looking.{IsTable, lets_through, test_of};

use crate::goal::Goal;
use action_table::Action;
use craft_state::State;
use front_walk::StateTest;
use priced_bound::{PricedBound, all_reach};
use step_rules::{check, is_final, step};

/// What is looked for, and the tables that tell how far each state can still come, beside those of the goal.
#[derive(Clone, Copy)]
pub(crate) struct Aim<'a> {
    pub(crate) goal: Goal<'a>,
    pub(crate) tables: &'a [PricedBound],
    ghost of: { All (IsTable goal.g.now) tables.now },
}

impl StateTest for Aim<'_> {
    ghost use Rattle.std.specs.Prelude.{⊤, refl, true};
    ghost use Rattle.best_search.specs.Looking.{test_of};

    type Asker = ();

    ghost craft = { λ a. a.goal.g.now };

    ghost passes = { λ a. test_of a.goal.target a.tables.now a.goal.filled.now };

    ghost allows = { λ _ _. true };

    ghost may_ask = { λ _ _. ⊤ };

    ghost still_asks = { λ _ _. ⊤ };

    fn passes(&self, _asker: &mut (), left: u32, s: &State) -> bool {
        all_reach(self.tables, self.goal.target, left, s)
            && all_reach(self.goal.filled, self.goal.target, left, s)
    }

    ghost goes_on_allowed = { λ _ _ _ _ _ _. refl };

    ghost same_asks = { λ _. tt };

    ghost later_asks = { λ _ _ _ _ _. tt };
}

impl Aim<'_> {
    /// Whether a list of `n` actions may complete the craft with the quality, by what the tables tell of the states after
    /// one action.
    pub(crate) fn lets_through(&self, n: u32) -> bool
        ensures { let goal = self.now.goal in
            result ≡ lets_through goal.g.now goal.from.now (test_of goal.target self.now.tables.now goal.filled.now) n }
    {
        n <= 1 || self.goes_on(n - 1)
    }

    // Whether the craft goes on after some action, and the state passes with so many steps left.
    fn goes_on(&self, left: u32) -> bool
        ensures { let goal = self.now.goal in let passes = test_of goal.target self.now.tables.now goal.filled.now in
            result ≡ list_any (goes_and_passes goal.g.now passes left goal.from.now) all_actions }
    {
        Action::ALL
            .iter()
            .any(|&action| self.leads_on(action, left))
    }

    // Whether the craft goes on after this action, and the state passes with so many steps left.
    fn leads_on(&self, action: Action, left: u32) -> bool
        ensures { let goal = self.now.goal in
            result ≡ goes_and_passes goal.g.now (test_of goal.target self.now.tables.now goal.filled.now) left goal.from.now action }
    {
        let goal = &self.goal;
        if check(goal.g, goal.from, action).is_err() {
            return false;
        }
        let state = step(goal.g, goal.from, action);
        !is_final(goal.g, &state) && self.passes(&mut (), left, &state)
    }
}
