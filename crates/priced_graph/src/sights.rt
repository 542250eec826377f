ghost use Rattle.std.specs.Prelude.{ℕ, ◌≡◌, ◌≤◌, ◌<◌, ◌*◌, true, if◌then◌else◌};

use action_table::Action;
use craft_settings::{Settings, allowed};
use craft_state::Combo;
use priced_moves::Seen;
use std::marker::Model;

/// What can be seen of the states of a craft, need and combo apart: each effect has so many values, one alone where no
/// allowed action leads to it. These sights are numbered from 0.
#[derive(Clone, Copy, PartialEq, Eq, Debug)]
pub struct Sights {
    iq: u32,
    innovation: u32,
    veneration: u32,
    strides: u32,
    muscle: u32,
    begun: u32,
}

impl Model for Sights {
    ghost use Rattle.priced_graph.specs.Sights.{SightsFields, AreSights};

    ghost Value = { SightsFields };

    ghost use Rattle.priced_graph.specs.Inside.{sights_fields, sights_inside};

    ghost view = { sights_fields };

    ghost invariant = { λ s. AreSights (sights_fields s) };

    ghost inverse = { sights_inside };
}

// So many values where the test holds, and else one.
fn values(on: bool, count: u32) -> u32
    ensures { result ≡ (if on then count else 1) }
{
    if on { count } else { 1 }
}

impl Sights {
    ghost use Rattle.priced_moves.specs.FirstMoves.{at_need, without_combo};
    ghost use Rattle.priced_moves.specs.Moves.{SeenFields};
    ghost use Rattle.priced_graph.specs.Sights.{AreSights, all_sights, sights_of, node_count, number_of, seen_at, IsSeenIn, IsSight};

    /// The sights of a craft.
    #[tactic(auto, unfolding(crate::specs::Sights::sights_of))]
    pub fn of(g: &Settings) -> Sights
        ensures { result ≡ sights_of g.now }
    {
        Sights {
            iq: values(g.level >= 11, 11),
            innovation: values(allowed(g, Action::Innovation), 5),
            veneration: values(allowed(g, Action::Veneration), 5),
            strides: values(allowed(g, Action::GreatStrides), 2),
            muscle: values(allowed(g, Action::MuscleMemory), 2),
            begun: values(g.backload, 2),
        }
    }

    /// The sights of all crafts.
    pub fn all() -> Sights
        ensures { result ≡ all_sights }
    {
        Sights {
            iq: 11,
            innovation: 5,
            veneration: 5,
            strides: 2,
            muscle: 2,
            begun: 2,
        }
    }

    /// How many sights there are, 1 to 2200.
    #[tactic(auto, using(crate::proofs::Digits::counts))]
    pub fn nodes(&self) -> usize
        ensures value { result ≡ node_count self.now }
        ensures high { result ≤ 2200 }
    {
        let steps = self.iq * self.innovation;
        let both = steps * self.veneration;
        let touches = both * self.strides;
        let all = touches * self.muscle;
        (all * self.begun) as usize
    }

    /// Whether the effects that are seen are among those of the craft.
    pub fn has(&self, x: &Seen) -> bool
        ensures yes { result ≡ true → IsSeenIn self.now x.now }
        ensures no { IsSeenIn self.now x.now → result ≡ true }
    {
        if x.iq >= self.iq || x.innovation >= self.innovation || x.veneration >= self.veneration {
            return false;
        }
        let strides = u32::from(x.strides);
        let muscle = u32::from(x.muscle);
        let begun = u32::from(x.begun);
        strides < self.strides && muscle < self.muscle && begun < self.begun
    }

    /// The number of what is seen of a state, below `nodes`. Need and combo have no part in it.
    pub fn number(&self, x: &Seen) -> usize
        requires { IsSeenIn self.now x.now }
        ensures value { result ≡ number_of self.now x.now }
        ensures below { result < node_count self.now }
        ensures small { result < 2200 }
        ensures seen { seen_at self.now result ≡ at_need (without_combo x.now) 0 }
    {
        self.place(x)
    }

    // The same, without the way back.
    #[tactic(auto, using(crate::proofs::Digits::products))]
    fn place(&self, x: &Seen) -> usize
        requires { IsSeenIn self.now x.now }
        ensures value { result ≡ number_of self.now x.now }
        ensures small { result < 2200 }
    {
        let steps = x.iq * self.innovation + x.innovation;
        let both = steps * self.veneration + x.veneration;
        let touches = both * self.strides + u32::from(x.strides);
        let all = touches * self.muscle + u32::from(x.muscle);
        (all * self.begun + u32::from(x.begun)) as usize
    }

    /// What is seen at a number below `nodes`, without a combo and with nothing to do.
    pub fn seen(&self, number: usize) -> Seen
        requires { number < node_count self.now }
        ensures value { result ≡ seen_at self.now number }
        ensures sight { IsSight self.now result }
        ensures back { number_of self.now result ≡ number }
        ensures only { (x : SeenFields) → IsSight self.now x → number_of self.now x ≡ number → x ≡ result }
    {
        self.parts(number)
    }

    // The same, without the way back.
    #[tactic(auto, using(crate::proofs::Digits::steps_small), unfolding(crate::specs::Sights::seen_at))]
    fn parts(&self, number: usize) -> Seen
        requires { number < node_count self.now }
        ensures value { result ≡ seen_at self.now number }
        ensures are { AreSights self.now }
    {
        let begun = self.begun;
        let number = number as u32;
        let all = number / begun;
        let touches = all / self.muscle;
        let both = touches / self.strides;
        let steps = both / self.veneration;
        Seen {
            need: 0,
            iq: steps / self.innovation,
            innovation: steps % self.innovation,
            veneration: both % self.veneration,
            strides: touches % self.strides == 1,
            muscle: all % self.muscle == 1,
            combo: Combo::NoCombo,
            begun: number % begun == 1,
        }
    }
}
