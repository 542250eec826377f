// What the judge asks of the limits.
use action_table::WantMemory;
use craft_settings::Settings;
use craft_state::State;
use std::alloc::Global;

/// The two limits of the states of a craft, at a grain.
pub trait Limits: Drop {
    ghost use Rattle.std.specs.Prelude.{◌≡◌, ◌≤◌, IfOk};
    ghost use Rattle.craft_settings.specs.Ranges.{AreSettings};
    ghost use Rattle.relaxed_moves.specs.Optimum.{limit_of, within_of};
    ghost use Rattle.front_check.specs.Judging.{Bounds, MayAsk};

    ghost bounds: { Self → Bounds };

    /// The limits of a craft, at a grain from 1 to 64.
    fn make(alloc: Global, g: &Settings, grain: u32) -> Result<Self, WantMemory>
        requires settings { AreSettings g.now }
        requires low { 1 ≤ grain }
        requires high { grain ≤ 64 }
        ensures { IfOk result (λ limits. bounds limits ≡ record { g = g.now; grain = grain }) };

    /// The greatest quality that a macro through the state can reach at most, and None where it can't be completed.
    fn limit(&mut self, s: &State) -> Option<u32>
        requires { MayAsk (bounds self.old) s.now }
        ensures value { result ≡ limit_of (bounds self.old).g (bounds self.old).grain s.now }
        ensures still { bounds self.new ≡ bounds self.old };

    /// The same in so many steps more.
    fn within(&mut self, s: &State, steps: u32) -> Option<u32>
        requires { MayAsk (bounds self.old) s.now }
        ensures value { result ≡ within_of (bounds self.old).g (bounds self.old).grain s.now steps }
        ensures still { bounds self.new ≡ bounds self.old };
}
