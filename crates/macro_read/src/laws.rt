// Laws of macro text. A function's contract is the law; its body does nothing.
ghost use Rattle.std.specs.Prelude.{◌≡◌, ◌≤◌, ℕ, List, length};
ghost use Rattle.action_table.specs.declared.action.Action.{Action};
ghost use Rattle.macro_text.specs.Blocks.{blocks_of};
ghost use Rattle.macro_read.specs.Lines.{Text, lines_of};
ghost use Rattle.macro_read.specs.Mark.{IsDivided};
ghost use Rattle.macro_read.specs.Reading.{IsMacroText, IsFirstOfNoKind};

/// A text is that of at most one list of actions. At most one of its lines is the first of none of the three kinds,
/// and then it is the text of no list.
pub fn reading_law()
    ensures list { (text : Text) (a b : List Action) → IsMacroText text a → IsMacroText text b → a ≡ b }
    ensures line { (text : Text) (m n : ℕ) → IsFirstOfNoKind (lines_of text) m → IsFirstOfNoKind (lines_of text) n → m ≡ n }
    ensures apart { (text : Text) (actions : List Action) (n : ℕ) → IsMacroText text actions → IsFirstOfNoKind (lines_of text) n → ⊥ }
{}

/// An input is divided in one way at most.
pub fn mark_law()
    ensures { (input before after other_before other_after : Text) → IsDivided input before after → IsDivided input other_before other_after
        → (before ≡ other_before) × (after ≡ other_after) }
{}

/// The blocks of at most 1000 actions are the text of these actions.
pub fn blocks_law()
    ensures { (actions : List Action) → length actions ≤ 1000 → IsMacroText (blocks_of actions) actions }
{}
