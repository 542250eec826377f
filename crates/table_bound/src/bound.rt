// What a truth of bounds offers.
use action_table::Action;
use craft_settings::Settings;
use race_core::Truth;
use relaxed_moves::Scale;

/// A truth whose entries are optima: the greatest gain of lists of relaxed moves that do all the progress within a
/// budget. What a move takes from the budget is the bound's own.
pub trait Bound: Truth {
    ghost use Rattle.std.specs.Prelude.{◌≡◌, ◌≤◌, ℕ, IsTrue};
    ghost use Rattle.race_core.specs.declared.entry.Entry.{Entry};
    ghost use Rattle.relaxed_moves.specs.Moves.{is_listed};
    ghost use Rattle.relaxed_moves.specs.Scales.{IsScale};
    ghost use Rattle.table_bound.specs.Bounds.{BoundRules, AreBoundRules, size_by, entry_at};

    ghost rules: { Self → BoundRules };

    /// The craft.
    fn settings(&self) -> &Settings
        ensures { result.now ≡ (rules self.now).g };

    /// Into how many buckets the progress is shared out, 1 to 64.
    fn grain(&self) -> u32
        ensures value { result ≡ (rules self.now).grain }
        ensures low { 1 ≤ result }
        ensures high { result ≤ 64 };

    /// What a relaxed move takes from the budget, at least the least price of the bound.
    fn price(&self, scale: &Scale, action: Action) -> u32
        requires scale { IsScale (rules self.now).g (rules self.now).grain scale.now }
        requires listed { IsTrue (is_listed (rules self.now).g action) }
        ensures value { result ≡ (rules self.now).price action }
        ensures low { (rules self.now).least ≤ result };

    // The laws that each bound proves.
    ghost rules_hold: { (t : Self) → AreBoundRules (rules t) };

    ghost sizes: { (t : Self) → Self.size t ≡ size_by (rules t) };

    ghost entries: { (t : Self) (index : ℕ) → Self.entry t index ≡ entry_at (rules t) index };
}
