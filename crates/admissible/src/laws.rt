// Laws of the limits. A function's contract is the law; its body does nothing.
ghost use Rattle.std.specs.Prelude.{ℕ, List, Some, ◌≡◌, ◌≤◌, false, length};
ghost use Rattle.action_table.specs.declared.action.Action.{Action};
ghost use Rattle.craft_state.specs.Craft.{StateFields};
ghost use Rattle.craft_state.specs.NotLess.{IsNotLess};
ghost use Rattle.craft_settings.specs.Ranges.{SettingsFields, AreSettings};
ghost use Rattle.step_rules.specs.Legality.{start_of, is_over, IsWithin};
ghost use Rattle.step_rules.specs.Macro.{counted, Completes};
ghost use Rattle.step_rules.specs.Run.{run_of};
ghost use Rattle.relaxed_moves.specs.Budget.{potential_of, start_potential_of};
ghost use Rattle.relaxed_moves.specs.Optimum.{option_le, limit_of, within_of};

/// No state that legal actions reach from the start has a greater potential than the start. After one action or more
/// the first step is over.
pub fn start_law()
    ensures start { (g : SettingsFields) → potential_of g (start_of g) ≡ start_potential_of g }
    ensures reached { (g : SettingsFields) (actions : List Action) (s : StateFields) → AreSettings g →
        run_of g (start_of g) actions ≡ Some s → potential_of g s ≤ start_potential_of g }
    ensures later { (g : SettingsFields) (actions : List Action) (s : StateFields) → 1 ≤ length actions →
        run_of g (start_of g) actions ≡ Some s → s.effects.first ≡ false }
{}

/// The limit of a live state after the first step, and its limit within the steps that are left, are at least the
/// quality that counts of each list of actions that completes the craft from there.
pub fn macro_law()
    ensures limit { (g : SettingsFields) (grain : ℕ) (s : StateFields) (actions : List Action) → 1 ≤ grain → IsWithin g s →
        s.effects.first ≡ false → is_over g s ≡ false → (whole : Completes g s actions) →
        option_le (Some (counted g whole.last)) (limit_of g grain s) }
    ensures within { (g : SettingsFields) (grain : ℕ) (s : StateFields) (actions : List Action) → 1 ≤ grain → IsWithin g s →
        s.effects.first ≡ false → is_over g s ≡ false → (whole : Completes g s actions) →
        option_le (Some (counted g whole.last)) (within_of g grain s (length actions)) }
{}

/// A state that isn't less than another has no lower potential and no lower limits.
pub fn not_less_law()
    ensures potential { (g : SettingsFields) (a b : StateFields) → IsNotLess a b → potential_of g b ≤ potential_of g a }
    ensures limit { (g : SettingsFields) (grain : ℕ) (a b : StateFields) → 1 ≤ grain → IsWithin g a → IsNotLess a b →
        option_le (limit_of g grain b) (limit_of g grain a) }
    ensures within { (g : SettingsFields) (grain : ℕ) (a b : StateFields) (steps : ℕ) → 1 ≤ grain → IsWithin g a → IsNotLess a b →
        option_le (within_of g grain b steps) (within_of g grain a steps) }
{}
