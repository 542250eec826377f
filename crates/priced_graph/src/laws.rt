//! Laws of the graph of a craft. A function's contract is the law; its body does nothing.

ghost use Rattle.std.specs.Prelude.{ℕ, Option, ◌≡◌, ◌≤◌, ◌<◌};
ghost use Rattle.craft_settings.specs.Ranges.{SettingsFields};
ghost use Rattle.relaxed_moves.specs.Optimum.{option_max};
ghost use Rattle.priced_moves.specs.declared.kinds.Prices.{Prices};
ghost use Rattle.priced_moves.specs.declared.kinds.Units.{Units};
ghost use Rattle.priced_moves.specs.Edges.{combo_edges_of, greatest_edge};
ghost use Rattle.priced_moves.specs.FirstMoves.{at_need, without_combo};
ghost use Rattle.priced_moves.specs.Moves.{SeenFields, AreUnits};
ghost use Rattle.priced_moves.specs.Prices.{AreFair};
ghost use Rattle.walk_table.specs.Graph.{GraphFields};
ghost use Rattle.walk_table.specs.Walks.{IsGreatestWorth};
ghost use Rattle.priced_graph.specs.Graphs.{most_gain, IsGraphOf, LeadOn};
ghost use Rattle.priced_graph.specs.Sights.{IsSeenIn, sights_of, seen_at};
ghost use Rattle.priced_graph.specs.Ties.{best_cut, lead_cut};

/// The greatest worth over the walks from a node is the best over all lists of priced moves from its sight, cut at the
/// same most, and nothing else is.
pub fn walks_law()
    ensures greatest { (p : Prices) (g : SettingsFields) (units : Units) (graph : GraphFields) (most budget node need : ℕ) →
        AreFair g p → AreUnits units → IsGraphOf p g units graph → most ≤ most_gain → node < graph.nodes →
        IsGreatestWorth graph most budget node need (best_cut most p g units budget (at_need (seen_at (sights_of g) node) need)) }
    ensures only { (p : Prices) (g : SettingsFields) (units : Units) (graph : GraphFields) (most budget node need : ℕ) (answer : Option ℕ) →
        AreFair g p → AreUnits units → IsGraphOf p g units graph → most ≤ most_gain → node < graph.nodes →
        IsGreatestWorth graph most budget node need answer →
        answer ≡ best_cut most p g units budget (at_need (seen_at (sights_of g) node) need) }
{}

/// With a combo the best is the greatest of the best without it and, over the edges that the combo adds, of what an
/// edge and the best behind it gain. These edges lead to the craft's sights.
pub fn combo_law()
    ensures best { (most : ℕ) (p : Prices) (g : SettingsFields) (units : Units) (budget : ℕ) (x : SeenFields) →
        AreFair g p → AreUnits units → x.iq ≤ 10 →
        option_max (best_cut most p g units budget (without_combo x))
        (greatest_edge (lead_cut most p g units budget x.need) (combo_edges_of p g units x))
        ≡ best_cut most p g units budget x }
    ensures lead_on { (p : Prices) (g : SettingsFields) (units : Units) (x : SeenFields) →
        AreFair g p → IsSeenIn (sights_of g) x → LeadOn (sights_of g) (combo_edges_of p g units x) }
{}
