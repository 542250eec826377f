// The law of answers. The function's contract is the law; its body does nothing.
ghost use Rattle.std.specs.Prelude.{ℕ, List};
ghost use Rattle.solve_words.specs.declared.words.Words.{Words};
ghost use Rattle.solve_engine.specs.Commands.{Answers, HasOneStatus};

/// An input is answered by one status, whatever the words ask for. So each status comes exactly where it is due.
pub fn one_status_law()
    ensures { (given : Words) (input : List ℕ) → HasOneStatus (Answers given input) }
{}
