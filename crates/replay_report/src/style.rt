// How much a report tells.
ghost use Rattle.std.specs.Prelude.{◌≡◌, ◌<◌, length};
ghost use Rattle.replay_report.specs.Report.{shown};

/// How much a report tells.
#[derive(Clone, Copy, Debug, PartialEq, Eq)]
pub enum Report {
    /// The macro, its blocks and its replay.
    Plain,
    /// The same, and after each step the most quality that a macro can still reach.
    Limits,
    /// The plain text, and after it how many prefixes each level of the search kept.
    Levels,
}

// The limit that the line of a place shows.
pub(crate) fn shown(style: &Report, limits: &[u32], place: usize) -> Option<u32>
    requires { style.now ≡ Report.Limits → place < length limits.now }
    ensures { result ≡ shown style.now limits.now place }
{
    match style {
        Report::Plain | Report::Levels => None,
        Report::Limits => Some(limits[place]),
    }
}
