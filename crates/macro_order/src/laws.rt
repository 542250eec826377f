// Laws of the order. A function's contract is the law; its body does nothing.
ghost use Rattle.std.specs.Prelude.{◌≡◌, ◌⊎◌, ◌↔◌, ◌++◌, List, [], Some, IsTrue};
ghost use Rattle.action_table.specs.declared.action.Action.{Action};
ghost use Rattle.craft_settings.specs.Ranges.{SettingsFields};
ghost use Rattle.craft_state.specs.Craft.{StateFields};
ghost use Rattle.step_rules.specs.Legality.{start_of};
ghost use Rattle.step_rules.specs.Run.{run_of};
ghost use Rattle.macro_order.specs.declared.scores.Score.{Score};
ghost use Rattle.macro_order.specs.Order.{score_of, is_better, IsBest, IsBestFrom, IsBestAfter};
ghost use Rattle.macro_order.specs.Order.{NothingCompletesFrom, NothingCompletesAfter};

/// Of two different complete legal macros exactly one is better.
pub fn one_is_better()
    ensures either { (g : SettingsFields) (m n : List Action) (a b : Score) → score_of g m ≡ Some a → score_of g n ≡ Some b →
        (m ≡ n) ⊎ (IsTrue (is_better a m b n) ⊎ IsTrue (is_better b n a m)) }
    ensures not_both { (m n : List Action) (a b : Score) → IsTrue (is_better a m b n) → IsTrue (is_better b n a m) → ⊥ }
{}

/// At most one macro is the best.
pub fn one_is_best()
    ensures { (g : SettingsFields) (m n : List Action) → IsBest g m → IsBest g n → m ≡ n }
{}

/// What comes after actions that are done. Where these are legal, a list is the best after them exactly where it is
/// the best from the state that they lead to, and nothing completes after them exactly where nothing completes from
/// it. After no action the best list is the best macro, and after the first actions of the best macro it is the rest.
pub fn continuation_law()
    ensures best { (g : SettingsFields) (done c : List Action) (s : StateFields) → run_of g (start_of g) done ≡ Some s →
        IsBestAfter g done c ↔ IsBestFrom g s c }
    ensures nothing { (g : SettingsFields) (done : List Action) (s : StateFields) → run_of g (start_of g) done ≡ Some s →
        NothingCompletesAfter g done ↔ NothingCompletesFrom g s }
    ensures empty { (g : SettingsFields) (c : List Action) → IsBestAfter g [] c ↔ IsBest g c }
    ensures rest { (g : SettingsFields) (done rest c : List Action) → IsBest g (done ++ rest) → IsBestAfter g done c → c ≡ rest }
{}
