// The text of a certificate.
ghost use Rattle.std.specs.Prelude.{◌≡◌, ◌<◌, ◌++◌, ◌∷◌, [], true, IfOk, OnOk, length, string_bytes};
ghost use Rattle.pareto_front.specs.Lists.{items_of};
ghost use Rattle.certificate_text.specs.Text.{first_line, best_line, level_line};
ghost use Rattle.certificate_maker.specs.Written.{verdict_word, gap, ended, ends_row, mark_text, marks_text};

use crate::marks::Mark;
use crate::rivals::{Rival, first_over};
use certificate_text::Verdict;
use front_check::{Claimed, print_best};
use std::alloc::AllocError;
use std::fmt::Write;

/// The first two lines.
pub(crate) fn opening(claimed: &Claimed<'_>) -> Result<String, AllocError>
    ensures { IfOk result (λ text.
        string_bytes text ≡ ended (first_line claimed.now.grain ∷ (best_line claimed.now.actions.now ∷ []))) }
{
    let grain = claimed.grain;
    let best = print_best(claimed.alloc, claimed.actions)?;
    let mut text = String::new(claimed.alloc);
    writeln!(text, "raphael certificate 1 grain {grain}")?;
    text.push_str(best.as_str())?;
    writeln!(text)?;
    Ok(text)
}

/// Appends the line of a level.
pub(crate) fn push_level(text: &mut String, number: u32, count: usize) -> Result<(), AllocError>
    ensures { OnOk result (string_bytes text.new ≡ string_bytes text.old ++ ended (level_line number count ∷ [])) }
{
    writeln!(text, "level {number} {count}")
}

/// Appends the rows of a level, with the nodes of the next level in buckets.
pub(crate) fn push_rows(
    text: &mut String,
    buckets: &[Vec<Rival>],
    marks: &[Mark],
) -> Result<(), AllocError>
    requires { 0 < length buckets.now }
    ensures { OnOk result (string_bytes text.new ≡ string_bytes text.old ++ marks_text (items_of buckets.now) true marks.now) }
{
    let mut first = true;
    for mark in marks {
        push_mark(text, buckets, first, mark)?;
        first = ends_row(mark);
    }
    Ok(())
}

// Whether a row ends with the mark.
fn ends_row(mark: &Mark) -> bool
    ensures { result ≡ ends_row mark.now }
{
    match mark {
        Mark::RowEnd => true,
        _ => false,
    }
}

// Appends a mark, which is the first of its row or not.
fn push_mark(
    text: &mut String,
    buckets: &[Vec<Rival>],
    first: bool,
    mark: &Mark,
) -> Result<(), AllocError>
    requires { 0 < length buckets.now }
    ensures { OnOk result (string_bytes text.new ≡ string_bytes text.old ++ mark_text (items_of buckets.now) first mark.now) }
{
    match mark {
        Mark::RowEnd => writeln!(text),
        Mark::Settled { verdict } => {
            push_gap(text, first)?;
            push_word(text, *verdict)
        }
        Mark::Open { child } => {
            push_gap(text, first)?;
            match first_over(buckets, child) {
                Some(place) => write!(text, "d{place}"),
                None => text.push_str("k"),
            }
        }
    }
}

// Appends a space, but before the first word of a row.
fn push_gap(text: &mut String, first: bool) -> Result<(), AllocError>
    ensures { OnOk result (string_bytes text.new ≡ string_bytes text.old ++ gap first) }
{
    if first {
        return Ok(());
    }
    text.push_str(" ")
}

// Appends the word of a verdict.
fn push_word(text: &mut String, verdict: Verdict) -> Result<(), AllocError>
    ensures { OnOk result (string_bytes text.new ≡ string_bytes text.old ++ verdict_word verdict) }
{
    match verdict {
        Verdict::Complete => text.push_str("c"),
        Verdict::Failed => text.push_str("f"),
        Verdict::Limited => text.push_str("q"),
        Verdict::Late => text.push_str("s"),
        Verdict::Dominated { place } => write!(text, "d{place}"),
        Verdict::Kept => text.push_str("k"),
    }
}
