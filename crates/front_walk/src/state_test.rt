// What a walk asks of states.
use craft_state::State;

/// A test of the states of one craft: whether a state may still lead where a walk goes, with so many actions left.
pub trait StateTest: Sync {
    ghost use Rattle.std.specs.Prelude.{◌≡◌, ℕ, Bool, true};
    ghost use Rattle.action_table.specs.declared.action.Action.{Action as ActionFields};
    ghost use Rattle.craft_settings.specs.Ranges.{SettingsFields};
    ghost use Rattle.craft_state.specs.Craft.{StateFields};
    ghost use Rattle.step_rules.specs.Legality.{IsWithin};
    ghost use Rattle.step_rules.specs.Step.{step_of};
    ghost use Rattle.prefix_fronts.specs.Prefix.{goes_on};

    /// What a worker asks with, as its seats at tables, or nothing.
    type Asker: Send;

    /// The settings of the craft.
    ghost craft: { Self → SettingsFields };

    /// Whether a state passes with so many actions left.
    ghost passes: { Self → ℕ → StateFields → Bool };

    /// Which states of the craft it may be asked of.
    ghost allows: { Self → StateFields → Bool };

    /// Who may ask.
    ghost may_ask: { Self → Self.Asker → Type 0 };

    /// What one who asks keeps.
    ghost still_asks: { Self.Asker → Self.Asker → Type 0 };

    /// Whether a state passes with so many actions left.
    fn passes(&self, asker: &mut Self::Asker, left: u32, s: &State) -> bool
        requires asker { may_ask self.now asker.old }
        requires within { IsWithin (craft self.now) s.now }
        requires allowed { allows self.now s.now ≡ true }
        ensures value { result ≡ passes self.now left s.now }
        ensures asker { may_ask self.now asker.new }
        ensures still { still_asks asker.old asker.new };

    // The laws that each test proves. What may be asked of a state may be asked of the next one, where the craft goes on.
    ghost goes_on_allowed: { (t : Self) (s : StateFields) (action : ActionFields) → IsWithin (craft t) s → allows t s ≡ true →
        goes_on (craft t) s action ≡ true → allows t (step_of (craft t) s action) ≡ true };

    ghost same_asks: { (a : Self.Asker) → still_asks a a };

    ghost later_asks: { (a b c : Self.Asker) → still_asks a b → still_asks b c → still_asks a c };
}
