//! The live prefixes of each length from a state of a craft, and the fronts among them. A function's contract is the
//! law; its body does nothing.
#![tactic(auto)]

ghost use Rattle.prefix_fronts.specs.Prefix.{start_is_open, stays_open, first_front, next_fronts, first_is_best};
ghost use Rattle.prefix_fronts.specs.Prefix.{prefixes_in_fronts, dominance_passes_on, best_is_undominated, best_survives, reached_is_found};

/// The start is open, and what legal actions lead to from an open state is open, unless it is over.
pub fn open_law()
    ensures start { start_is_open }
    ensures after { stays_open }
{}

/// The first front is the state itself, if it passes, and each other comes from the children of the front before.
pub fn front_law()
    ensures first { first_front }
    ensures next { next_fronts }
{}

/// The first completion found is the best from the state.
pub fn best_law()
    ensures { first_is_best }
{}

/// The prefixes of what is found are in the fronts.
pub fn inside_law()
    ensures { prefixes_in_fronts }
{}

/// A live child of a dominated prefix is dominated.
pub fn child_dominated_law()
    ensures { dominance_passes_on }
{}

/// A dominated prefix is no prefix of the best list from the state.
pub fn dominated_law()
    ensures none { best_is_undominated }
    ensures each { best_survives }
{}

/// A list of the greatest quality is found, at the latest where the fronts are those of its length.
pub fn reached_law()
    ensures { reached_is_found }
{}
