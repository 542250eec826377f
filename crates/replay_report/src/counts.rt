// How many prefixes the levels of the search kept.
ghost use Rattle.std.specs.Prelude.{◌≡◌, ◌++◌, sum, string_bytes, IfOk, OnOk};
ghost use Rattle.replay_report.specs.Lines.{kept_line, level_line};
ghost use Rattle.replay_report.specs.Report.{levels_of, levels_shown};

use crate::style::Report;
use std::alloc::{AllocError, Global};
use std::fmt::Write;

// The sum of the counts.
pub(crate) fn total(counts: &[u64]) -> u128
    ensures { result ≡ sum counts.now }
{
    let mut total = 0;
    for &count in counts {
        total += u128::from(count);
    }
    total
}

// The line of the sum.
pub(crate) fn kept_text(alloc: Global, counts: &[u64]) -> Result<String, AllocError>
    ensures { IfOk result (λ line. string_bytes line ≡ kept_line counts.now) }
{
    let kept = total(counts);
    format!(in alloc; "kept {kept}\n")
}

// The lines of the levels, in the style that tells them.
pub(crate) fn levels_shown(
    alloc: Global,
    counts: &[u64],
    style: &Report,
) -> Result<String, AllocError>
    ensures { IfOk result (λ text. string_bytes text ≡ levels_shown style.now counts.now) }
{
    match style {
        Report::Plain | Report::Limits => Ok(String::new(alloc)),
        Report::Levels => levels_text(alloc, counts),
    }
}

// A line for each level, from 0.
fn levels_text(alloc: Global, counts: &[u64]) -> Result<String, AllocError>
    ensures { IfOk result (λ text. string_bytes text ≡ levels_of counts.now) }
{
    let mut text = String::new(alloc);
    for (level, &count) in counts.iter().enumerate() {
        push_level(&mut text, level, count)?;
    }
    Ok(text)
}

fn push_level(text: &mut String, level: usize, count: u64) -> Result<(), AllocError>
    ensures { OnOk result (string_bytes text.new ≡ string_bytes text.old ++ level_line (level, count)) }
{
    writeln!(text, "level {level} {count}")
}
