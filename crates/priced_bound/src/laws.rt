//! Laws of the tables' limits and tests. A function's contract is the law; its body does nothing.

ghost use Rattle.std.specs.Prelude.{ℕ, List, Some, ◌≡◌, ◌≤◌, ◌+◌, length, true};
ghost use Rattle.action_table.specs.declared.action.Action.{Action};
ghost use Rattle.craft_settings.specs.Ranges.{SettingsFields};
ghost use Rattle.craft_state.specs.Craft.{StateFields};
ghost use Rattle.craft_state.specs.NotLess.{IsNotLess};
ghost use Rattle.step_rules.specs.Legality.{IsWithin};
ghost use Rattle.step_rules.specs.Macro.{counted};
ghost use Rattle.step_rules.specs.Step.{step_of};
ghost use Rattle.admissible.specs.Laws.{GoesOn, Finishes};
ghost use Rattle.relaxed_moves.specs.Optimum.{option_le};
ghost use Rattle.prefix_fronts.specs.Prefix.{AreLimits};
ghost use Rattle.priced_bound.specs.Bounds.{BoundFields, limit_in, passes, all_pass, AreTablesOf};
ghost use Rattle.priced_bound.specs.Reckoned.{AreReckoned};

/// No step raises the limit with the steps that are then left, and a last step gains no more than it, the first step of a
/// craft too. A state that isn't less has no lower limit.
pub fn limit_law()
    ensures step { (b : BoundFields) (s : StateFields) (action : Action) (left : ℕ) →
        AreReckoned b.by → GoesOn b.by.g s action → 1 ≤ left →
        option_le (limit_in b (step_of b.by.g s action) left) (limit_in b s (left + 1)) }
    ensures last { (b : BoundFields) (s : StateFields) (action : Action) (left : ℕ) →
        AreReckoned b.by → Finishes b.by.g s action → 1 ≤ left →
        option_le (Some (counted b.by.g (step_of b.by.g s action))) (limit_in b s left) }
    ensures order { (b : BoundFields) (s t : StateFields) (left : ℕ) →
        AreReckoned b.by → IsWithin b.by.g s → IsNotLess s t → option_le (limit_in b t left) (limit_in b s left) }
{}

/// Where steps cost nothing, nine steps left are as good as any number that the table tells of: no step raises the limit.
pub fn free_law()
    ensures { (b : BoundFields) (s : StateFields) (action : Action) (left : ℕ) →
        AreReckoned b.by → b.by.prices.step ≡ 0 → GoesOn b.by.g s action → 9 ≤ left →
        option_le (limit_in b (step_of b.by.g s action) left) (limit_in b s left) }
{}

/// A table's test keeps what the fronts ask of a test, and so do the tests of several tables together.
pub fn test_law()
    ensures alone { (b : BoundFields) (target : ℕ) → AreReckoned b.by → AreLimits b.by.g target (passes b target) }
    ensures together { (g : SettingsFields) (bounds : List BoundFields) (target : ℕ) →
        AreTablesOf g bounds → AreLimits g target (all_pass bounds target) }
{}
