//! What the numbers and lists are that contracts of several crates cite. A function's contract is the law; its body does nothing.
#![tactic(auto)]

ghost use Rattle.std.specs.Prelude.{◌≡◌, ◌+◌, ◌++◌, true, false, map, take, drop};
ghost use Rattle.std.specs.List.{range_with_len};
ghost use Rattle.action_table.specs.Table.{all_actions, number_of};
ghost use Rattle.craft_settings.specs.Keys.{places, row_of, rows, trained_eye_key};
ghost use Rattle.relaxed_moves.specs.declared.places.TheConstants.{BUCKET_STATES, MOST_BUDGET, MOST_MOVES};
ghost use Rattle.craft_settings.specs.declared.reader.TheConstants.{MAX_LENGTH};
ghost use Rattle.run_io.specs.declared.reading.TheConstants.{READ_MOST};
ghost use Rattle.step_rules.specs.declared.legality.TheConstants.{MOST_STEPS};
ghost use Rattle.stat_sweep.specs.declared.TheConstants.{MOST_BASE};
ghost use Rattle.quality_pass.specs.declared.TheConstants.{LAST_FILLED};
ghost use Rattle.front_check.specs.declared.checker.TheConstants.{MOST_TEXT};
ghost use Rattle.certificate_text.specs.declared.numbers.TheConstants.{MOST_NUMBER};

/// There are 26 actions, and their list is in the action order.
pub fn order_law()
    ensures { map number_of all_actions ≡ range_with_len 0 26 }
{}

/// No macro has more than 272 steps; the tables of bounds have budgets up to 1378 and up to 63 moves, and 1100 relaxed
/// states in a bucket, and the budgets up to 63 are filled before a search; a settings file has at most 65536 bytes, and
/// one byte more is read of an input.
pub fn numbers_law()
    ensures steps { MOST_STEPS ≡ 272 }
    ensures budget { MOST_BUDGET ≡ 1378 }
    ensures moves { MOST_MOVES ≡ 63 }
    ensures filled { LAST_FILLED ≡ 63 }
    ensures states { BUCKET_STATES ≡ 1100 }
    ensures length { MAX_LENGTH ≡ 65536 }
    ensures read { READ_MOST ≡ 65537 }
{}

/// A sweep tries bases up to 5000; a certificate has at most 16777216 bytes, and its numbers are at most 1000000000.
pub fn commands_law()
    ensures base { MOST_BASE ≡ 5000 }
    ensures text { MOST_TEXT ≡ 16777216 }
    ensures number { MOST_NUMBER ≡ 1000000000 }
{}

/// The second version of the settings has the whole list of keys, and the first the same list without
/// `recipe.trained_eye`.
#[tactic(auto, unfolding(craft_settings::specs::Keys::rows, craft_settings::specs::Keys::row_of, craft_settings::specs::Keys::places, craft_settings::specs::Keys::section_name))]
pub fn versions_law()
    ensures second { map row_of (places true) ≡ rows }
    ensures first { map row_of (places false) ≡ take trained_eye_key rows ++ drop (trained_eye_key + 1) rows }
{}
