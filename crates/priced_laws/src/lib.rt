//! What a step of a craft does to the priced bounds. A function's contract is the law; its body does nothing.
#![tactic(auto)]

ghost use Rattle.std.specs.Prelude.{ℕ, List, length, Some, ◌≡◌, ◌≤◌, ◌+◌, true, false};
ghost use Rattle.action_table.specs.declared.action.Action.{Action};
ghost use Rattle.craft_state.specs.Craft.{StateFields};
ghost use Rattle.craft_state.specs.NotLess.{IsNotLess};
ghost use Rattle.craft_settings.specs.Ranges.{SettingsFields};
ghost use Rattle.step_rules.specs.Legality.{IsWithin};
ghost use Rattle.step_rules.specs.Macro.{counted};
ghost use Rattle.step_rules.specs.Step.{step_of};
ghost use Rattle.admissible.specs.Laws.{GoesOn};
ghost use Rattle.relaxed_moves.specs.Optimum.{option_le};
ghost use Rattle.priced_moves.specs.declared.kinds.Prices.{Prices};
ghost use Rattle.priced_moves.specs.declared.kinds.Units.{Units};
ghost use Rattle.priced_moves.specs.Moves.{IsNoAbler, AreUnits, is_listed, seen_of, move_on_of};
ghost use Rattle.priced_moves.specs.Prices.{AreFair, price_of, worth_of};
ghost use Rattle.priced_moves.specs.Optimum.{limit_of, reaches};
ghost use Rattle.priced_laws.specs.Laws.{GoesLater, FinishesLater, StaysLive, IsDone, fair_prices_limit, tests_together};

/// What is seen after a step is no more than the move makes it, or than before a rest; and the worth falls by the
/// price of a move, and doesn't rise by a rest.
pub fn step_law()
    ensures move_seen { (g : SettingsFields) (units : Units) (s : StateFields) (action : Action) →
        AreUnits units → GoesLater g s action →
        IsNoAbler (seen_of g units (step_of g s action)) (move_on_of g units (seen_of g units s) action) }
    ensures move_worth { (p : Prices) (g : SettingsFields) (s : StateFields) (action : Action) (j : ℕ) →
        AreFair g p → GoesOn g s action → 1 ≤ j → is_listed g action ≡ true →
        worth_of p (step_of g s action) j + price_of p g s.effects.combo action ≤ worth_of p s (j + 1) }
    ensures rest_seen { (g : SettingsFields) (units : Units) (s : StateFields) (action : Action) →
        AreUnits units → GoesLater g s action → is_listed g action ≡ false →
        IsNoAbler (seen_of g units (step_of g s action)) (seen_of g units s) }
    ensures rest_worth { (p : Prices) (g : SettingsFields) (s : StateFields) (action : Action) (j : ℕ) →
        AreFair g p → GoesOn g s action → 1 ≤ j → worth_of p (step_of g s action) j ≤ worth_of p s (j + 1) }
{}

/// More steps are worth no less, and a state that isn't less has no lower limit.
pub fn order_law()
    ensures worth { (p : Prices) (g : SettingsFields) (s : StateFields) (i j : ℕ) →
        AreFair g p → i ≤ j → worth_of p s i ≤ worth_of p s j }
    ensures steps { (p : Prices) (g : SettingsFields) (units : Units) (s : StateFields) (i j : ℕ) →
        AreFair g p → AreUnits units → IsWithin g s → i ≤ j → option_le (limit_of p g units s i) (limit_of p g units s j) }
    ensures not_less { (p : Prices) (g : SettingsFields) (units : Units) (a b : StateFields) (j : ℕ) →
        AreFair g p → AreUnits units → IsWithin g a → IsNotLess a b →
        option_le (limit_of p g units b j) (limit_of p g units a j) }
{}

/// No step raises the limit, and a last step gains no more than it.
pub fn limit_law()
    ensures step { (p : Prices) (g : SettingsFields) (units : Units) (s : StateFields) (action : Action) (j : ℕ) →
        AreFair g p → AreUnits units → GoesLater g s action → 1 ≤ j →
        option_le (limit_of p g units (step_of g s action) j) (limit_of p g units s (j + 1)) }
    ensures last { (p : Prices) (g : SettingsFields) (units : Units) (s : StateFields) (action : Action) (j : ℕ) →
        AreFair g p → AreUnits units → FinishesLater g s action → 1 ≤ j →
        option_le (Some (counted g (step_of g s action))) (limit_of p g units s j) }
{}

/// From any live state after the first step: the limit never rises along a macro, and is at least the quality that
/// counts of each macro that completes the craft, within as many steps.
pub fn macro_law()
    ensures along { (p : Prices) (g : SettingsFields) (units : Units) (s t : StateFields) (actions : List Action) (j : ℕ) →
        AreFair g p → AreUnits units → StaysLive g s actions t → s.effects.first ≡ false → 1 ≤ j →
        option_le (limit_of p g units t j) (limit_of p g units s (j + length actions)) }
    ensures within { (p : Prices) (g : SettingsFields) (units : Units) (s t : StateFields) (actions : List Action) →
        AreFair g p → AreUnits units → IsDone g s actions t → s.effects.first ≡ false →
        option_le (Some (counted g t)) (limit_of p g units s (length actions)) }
{}

/// Where steps cost nothing, nine steps are as good as any number: no step raises the limit, and it is at least the
/// quality that counts of each macro that completes the craft.
pub fn free_law()
    ensures step { (p : Prices) (g : SettingsFields) (units : Units) (s : StateFields) (action : Action) (j : ℕ) →
        AreFair g p → AreUnits units → p.step ≡ 0 → 9 ≤ j → GoesLater g s action →
        option_le (limit_of p g units (step_of g s action) j) (limit_of p g units s j) }
    ensures within { (p : Prices) (g : SettingsFields) (units : Units) (s t : StateFields) (actions : List Action) (j : ℕ) →
        AreFair g p → AreUnits units → p.step ≡ 0 → 9 ≤ j → IsDone g s actions t → s.effects.first ≡ false →
        option_le (Some (counted g t)) (limit_of p g units s j) }
{}

/// No live state to which a macro leads is worth more than the state where it begins with the steps that led there.
pub fn worth_law()
    ensures { (p : Prices) (g : SettingsFields) (s t : StateFields) (actions : List Action) (j : ℕ) →
        AreFair g p → StaysLive g s actions t → 1 ≤ j → worth_of p t j ≤ worth_of p s (j + length actions) }
{}

/// The test of fair prices keeps what the fronts ask of a test, alone and beside other tests that do. A live state from
/// which a macro reaches the target passes with as many steps left; more steps and a lower target are no harder.
pub fn test_law()
    ensures alone { fair_prices_limit }
    ensures together { tests_together }
    ensures done { (p : Prices) (g : SettingsFields) (units : Units) (target : ℕ) (s t : StateFields) (actions : List Action) →
        AreFair g p → AreUnits units → IsDone g s actions t → target ≤ counted g t →
        reaches p g units target (length actions) s ≡ true }
    ensures order { (p : Prices) (g : SettingsFields) (units : Units) (target lower : ℕ) (s : StateFields) (i j : ℕ) →
        AreFair g p → AreUnits units → IsWithin g s → i ≤ j → lower ≤ target →
        reaches p g units target i s ≡ true → reaches p g units lower j s ≡ true }
{}

#[cfg(test)]
mod tests;
