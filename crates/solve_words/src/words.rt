ghost use Rattle.std.specs.Prelude.{◌≡◌, map};
ghost use Rattle.solve_words.specs.Words.{options_of};

use crate::done::Done;
use replay_report::Report;

// The names of the options of `resume`.
pub(crate) const RESUME_OPTIONS: &[&str] = &["done", "workers", "grain"];

/// What the program is asked to do.
#[derive(Debug, Drop)]
pub enum Command {
    /// Find the best macro for the settings that are read.
    Solve,
    /// Find the best macro for the sample craft with this number, at most 999999.
    Sample(u32),
    /// Find the best way to end the craft after the actions that are done.
    Resume(Done),
    /// Find the least base quality that is enough for the settings that are read.
    Sweep,
    /// Play the macro text that follows the settings.
    Replay,
    /// Tell whether that macro is the best one.
    Check,
    /// Write why the best macro for the settings that are read is the best.
    Certify,
    /// Judge the certificate that follows the settings, without a search.
    Verify,
}

impl Command {
    // The names of its options.
    pub(crate) fn option_names(&self) -> &'static [&'static str]
        ensures { map (λ s. s.now) result.now ≡ options_of self.now }
    {
        match self {
            Command::Solve => &["workers", "grain", "report"],
            Command::Sample(_) | Command::Sweep | Command::Check => &["workers", "grain"],
            Command::Resume(_) => RESUME_OPTIONS,
            Command::Replay => &[],
            Command::Certify => &["workers", "grain"],
            Command::Verify => &[],
        }
    }
}

/// What the words after the program's name say, with the default of each option that isn't given.
#[derive(Debug, Drop)]
pub struct Words {
    pub command: Command,
    /// How many workers search, from 1 to 64.
    pub workers: u32,
    /// Into how many steps the bounds cut the progress, from 1 to 64.
    pub grain: u32,
    pub report: Report,
}
