// Laws of the words. A function's contract is the law; its body does nothing.
ghost use Rattle.std.specs.Prelude.{◌≡◌, ◌↔◌, List, Some};
ghost use Rattle.action_table.specs.declared.action.Action.{Action};
ghost use Rattle.solve_words.specs.Done.{IsListOf, done_of};
ghost use Rattle.solve_words.specs.Form.{Text, Given, given_in};
ghost use Rattle.solve_words.specs.Options.{AreOptions};

/// The options that the reader finds in words are just those that the words write: each has one of the names, none
/// comes twice, and each is written in one of two ways.
pub fn options_law()
    ensures { (names words : List Text) (options : List Given) → (given_in names words ≡ Some options) ↔ AreOptions names words options }
{}

/// The actions that are read from a text are just those whose key names it is, joined by single commas. There is one at
/// least.
pub fn done_law()
    ensures { (text : Text) (done : List Action) → (done_of text ≡ Some done) ↔ IsListOf text done }
{}
