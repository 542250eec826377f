// Laws of relaxed moves. A function's contract is the law; its body does nothing.
ghost use Rattle.std.specs.Prelude.{ℕ, ◌≡◌, ◌≤◌, IsTrue};
ghost use Rattle.action_table.specs.declared.action.Action.{Action};
ghost use Rattle.action_table.specs.Table.{all_actions};
ghost use Rattle.craft_settings.specs.Ranges.{SettingsFields, AreSettings};
ghost use Rattle.relaxed_moves.specs.Budget.{cost_of};
ghost use Rattle.relaxed_moves.specs.FirstMoves.{leads};
ghost use Rattle.relaxed_moves.specs.Moves.{RelaxedFields, AreRelaxed, IsNoBetter, is_move_of, move_gain_of, move_on_of};
ghost use Rattle.relaxed_moves.specs.Optimum.{IsGreatestGain, one, opt, option_le, reach};

/// The two optima are the greatest gains over lists of any length.
pub fn optimum_law()
    ensures opt { (g : SettingsFields) (grain budget : ℕ) (x : RelaxedFields) → AreSettings g →
        IsGreatestGain (cost_of g) g grain budget x (opt g grain budget x) }
    ensures reach { (g : SettingsFields) (grain moves : ℕ) (x : RelaxedFields) →
        IsGreatestGain one g grain moves x (reach g grain moves x) }
{}

/// Where one relaxed state is no better than another, the same moves are no better from it.
pub fn order_law()
    ensures moves { (g : SettingsFields) (x y : RelaxedFields) (action : Action) → AreRelaxed y → IsNoBetter x y →
        IsTrue (is_move_of g x action) → IsTrue (is_move_of g y action) }
    ensures gain { (g : SettingsFields) (x y : RelaxedFields) (action : Action) → IsNoBetter x y →
        move_gain_of g x action ≤ move_gain_of g y action }
    ensures move_on { (g : SettingsFields) (grain : ℕ) (x y : RelaxedFields) (action : Action) → AreSettings g → 1 ≤ grain →
        IsNoBetter x y → IsNoBetter (move_on_of g grain x action) (move_on_of g grain y action) }
{}

/// The optima of a relaxed state that is no better are at most the other's.
pub fn no_better_law()
    ensures opt { (g : SettingsFields) (grain budget : ℕ) (x y : RelaxedFields) → AreSettings g → 1 ≤ grain → AreRelaxed y →
        IsNoBetter x y → option_le (opt g grain budget x) (opt g grain budget y) }
    ensures reach { (g : SettingsFields) (grain moves : ℕ) (x y : RelaxedFields) → AreSettings g → 1 ≤ grain → AreRelaxed y →
        IsNoBetter x y → option_le (reach g grain moves x) (reach g grain moves y) }
{}

/// With every action tried as the first move, the lead is the optimum.
pub fn first_move_law()
    ensures opt { (g : SettingsFields) (grain budget : ℕ) (x : RelaxedFields) → AreSettings g →
        leads (cost_of g) g grain budget x all_actions ≡ opt g grain budget x }
    ensures reach { (g : SettingsFields) (grain moves : ℕ) (x : RelaxedFields) →
        leads one g grain moves x all_actions ≡ reach g grain moves x }
{}
