ghost use Rattle.std.specs.Prelude.{◌≡◌, reverse};
ghost use Rattle.std.specs.List.{list_any};
ghost use Rattle.pareto_front.specs.Columns.{numbers_of, are_no_less};

use craft_state::State;

/// What states with equal progress and effects are compared by.
#[derive(Clone, Copy)]
pub(crate) struct Numbers {
    pub cp: u32,
    pub durability: u32,
    pub quality: u32,
}

impl Numbers {
    /// The numbers of a state.
    pub fn of(state: &State) -> Numbers
        ensures { result ≡ numbers_of state.now }
    {
        Numbers {
            cp: state.cp,
            durability: state.durability,
            quality: state.quality,
        }
    }

    /// Whether none of these numbers is less than the other's.
    #[tactic(auto, unfolding(crate::specs::Columns::are_no_less))]
    pub fn reach(&self, other: Numbers) -> bool
        ensures { result ≡ are_no_less self.now other }
    {
        self.cp >= other.cp && self.durability >= other.durability && self.quality >= other.quality
    }
}

/// Whether some numbers of a list reach these. The latest are tried first, since a search often comes
/// back to states near those that it kept last.
pub(crate) fn is_reached(list: &[Numbers], numbers: Numbers) -> bool
    ensures { result ≡ list_any (λ n. are_no_less n numbers) (reverse list.now) }
{
    list.iter().rev().any(|n| n.reach(numbers))
}
