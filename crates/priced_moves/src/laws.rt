//! Laws of priced moves. A function's contract is the law; its body does nothing.

ghost use Rattle.std.specs.Prelude.{ℕ, List, Some, ◌≡◌, ◌≤◌, ◌-◌, true, IsTrue};
ghost use Rattle.action_table.specs.declared.action.Action.{Action};
ghost use Rattle.action_table.specs.Table.{all_actions};
ghost use Rattle.craft_state.specs.declared.Combo.{Combo};
ghost use Rattle.craft_state.specs.Craft.{StateFields};
ghost use Rattle.craft_settings.specs.Ranges.{SettingsFields, AreSettings};
ghost use Rattle.craft_settings.specs.Rules.{is_allowed};
ghost use Rattle.relaxed_moves.specs.Budget.{cost_of, potential_of};
ghost use Rattle.relaxed_moves.specs.Optimum.{option_le, option_max, greatest_each};
ghost use Rattle.priced_moves.specs.declared.kinds.Prices.{Prices};
ghost use Rattle.priced_moves.specs.declared.kinds.Units.{Units};
ghost use Rattle.priced_moves.specs.Moves.{SeenFields, IsNoAbler, AreUnits, is_move_of, gain_of, shift_of, move_on_of};
ghost use Rattle.priced_moves.specs.Prices.{AreFair, price_of, worth_of, steps_alone, budget_alone};
ghost use Rattle.priced_moves.specs.Edges.{edges_of, combo_edges_of, edge_leads, greatest_edge};
ghost use Rattle.priced_moves.specs.FirstMoves.{at_end, leads_with, at_need, without_combo, continuing};
ghost use Rattle.priced_moves.specs.Optimum.{gained, best};

/// Where one sight can do no more than another, each move costs no less, gains no more and leads to what can do no more;
/// and so the greatest gain within a budget that isn't greater is no more.
pub fn order_law()
    ensures moves { (g : SettingsFields) (x y : SeenFields) (action : Action) → IsNoAbler x y → y.iq ≤ 10 →
        IsTrue (is_move_of g x action) → IsTrue (is_move_of g y action) }
    ensures price { (p : Prices) (g : SettingsFields) (x y : SeenFields) (action : Action) → AreFair g p → IsNoAbler x y →
        price_of p g y.combo action ≤ price_of p g x.combo action }
    ensures gain { (g : SettingsFields) (units : Units) (x y : SeenFields) (action : Action) → AreUnits units → IsNoAbler x y →
        gain_of g units x action ≤ gain_of g units y action }
    ensures move_on { (g : SettingsFields) (units : Units) (x y : SeenFields) (action : Action) → AreUnits units → IsNoAbler x y →
        IsNoAbler (move_on_of g units x action) (move_on_of g units y action) }
    ensures best { (p : Prices) (g : SettingsFields) (units : Units) (low high : ℕ) (x y : SeenFields) →
        AreFair g p → AreUnits units → low ≤ high → IsNoAbler x y → y.iq ≤ 10 →
        option_le (best p g units low x) (best p g units high y) }
{}

/// No list of moves gains more than the best, and where there is one, some list gains as much.
pub fn best_law()
    ensures upper { (p : Prices) (g : SettingsFields) (units : Units) (budget : ℕ) (x : SeenFields) (moves : List Action) →
        AreFair g p → option_le (gained p g units budget x moves) (best p g units budget x) }
    ensures attained { (p : Prices) (g : SettingsFields) (units : Units) (budget : ℕ) (x : SeenFields) (most : ℕ) →
        best p g units budget x ≡ Some most → (moves : List Action) × (gained p g units budget x moves ≡ Some most) }
{}

/// How a table finds the best: by the first move; for a whole column of needs at once, since a move takes one to
/// another, shifted; and with a combo from the best without it and the few actions that it changes.
pub fn first_move_law()
    ensures first { (p : Prices) (g : SettingsFields) (units : Units) (budget : ℕ) (x : SeenFields) → AreFair g p →
        option_max (at_end x) (greatest_each (leads_with p g units budget x) all_actions) ≡ best p g units budget x }
    ensures column { (g : SettingsFields) (units : Units) (x : SeenFields) (action : Action) (need : ℕ) →
        move_on_of g units (at_need x need) action ≡ at_need (move_on_of g units x action) (need - shift_of g units x action) }
    ensures combo { (p : Prices) (g : SettingsFields) (units : Units) (budget : ℕ) (x : SeenFields) →
        AreFair g p → AreUnits units → x.iq ≤ 10 →
        option_max (best p g units budget (without_combo x)) (greatest_each (leads_with p g units budget x) (continuing x.combo))
        ≡ best p g units budget x }
{}

/// How a table finds the best by its edges: from what is seen without a combo, and what a combo adds to that. The
/// edges are the same for each need.
pub fn edges_law()
    ensures table { (p : Prices) (g : SettingsFields) (units : Units) (budget : ℕ) (x : SeenFields) →
        AreFair g p → AreUnits units → x.iq ≤ 10 →
        option_max (at_end x) (greatest_edge (edge_leads p g units budget x.need) (edges_of p g units x))
        ≡ best p g units budget x }
    ensures combo { (p : Prices) (g : SettingsFields) (units : Units) (budget : ℕ) (x : SeenFields) →
        AreFair g p → AreUnits units → x.iq ≤ 10 →
        option_max (best p g units budget (without_combo x))
        (greatest_edge (edge_leads p g units budget x.need) (combo_edges_of p g units x))
        ≡ best p g units budget x }
    ensures column { (p : Prices) (g : SettingsFields) (units : Units) (x : SeenFields) (need : ℕ) →
        edges_of p g units (at_need x need) ≡ edges_of p g units x }
    ensures combo_column { (p : Prices) (g : SettingsFields) (units : Units) (x : SeenFields) (need : ℕ) →
        combo_edges_of p g units (at_need x need) ≡ combo_edges_of p g units x }
{}

/// The bounds by the number of steps alone and by the budget alone are special prices, in all but their buckets. By
/// the first each move costs one, and so many steps are worth so many. The second are fair; by them no move costs less
/// than its weight in CP, and no state is worth more than its potential.
pub fn special_law()
    ensures step_price { (g : SettingsFields) (combo : Combo) (action : Action) → price_of steps_alone g combo action ≡ 1 }
    ensures step_worth { (s : StateFields) (steps : ℕ) → worth_of steps_alone s steps ≡ steps }
    ensures budget_fair { (g : SettingsFields) → AreSettings g → AreFair g (budget_alone g) }
    ensures budget_price { (g : SettingsFields) (combo : Combo) (action : Action) → is_allowed g action ≡ true →
        cost_of g action ≤ price_of (budget_alone g) g combo action }
    ensures budget_worth { (g : SettingsFields) (s : StateFields) (steps : ℕ) → worth_of (budget_alone g) s steps ≤ potential_of g s }
{}
