ghost use Rattle.std.specs.Prelude.{◌≡◌};
ghost use Rattle.priced_bound.specs.Bounds.{IsWithinEach, all_pass};

use crate::bound::PricedBound;
use craft_state::State;

/// Whether a state may still lead to the target with so many steps left by each of these tables of its craft.
pub fn all_reach(bounds: &[PricedBound], target: u32, left: u32, s: &State) -> bool
    requires { IsWithinEach bounds.now s.now }
    ensures { result ≡ all_pass bounds.now target left s.now }
{
    for bound in bounds {
        if !bound.reaches(target, left, s) {
            return false;
        }
    }
    true
}
