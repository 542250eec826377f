// The words of the reasons why an action isn't legal.
ghost use Rattle.std.specs.Prelude.{◌≡◌};
ghost use Rattle.replay_report.specs.Reasons.{reason_word};

use step_rules::Illegal;

/// The word of a reason why an action isn't legal.
pub fn reason_word(why: Illegal) -> &'static str
    ensures { result.now ≡ reason_word why }
{
    match why {
        Illegal::NotLearned => "not_learned",
        Illegal::Forbidden => "forbidden",
        Illegal::NotFirst => "not_first",
        Illegal::NoStacks => "no_stacks",
        Illegal::NotTen => "not_ten",
        Illegal::UnderWaste => "under_waste",
        Illegal::PerfectionSpent => "perfection_spent",
        Illegal::NotEnoughCp { .. } => "not_enough_cp",
        Illegal::Finished => "finished",
        Illegal::Backloaded => "backloaded",
    }
}
