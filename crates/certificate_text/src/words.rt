// Rows of verdicts.
ghost use Rattle.std.specs.Prelude.{◌≡◌, List, map, length, IfOk, MatchOption};
ghost use Rattle.certificate_text.specs.Text.{Says, IsRow};
ghost use Rattle.certificate_text.specs.Reading.{as_read, IsRead, IsNoRow, IsReadRow};
ghost use Rattle.certificate_text.specs.declared.verdict.Verdict.{Verdict};

use crate::cuts::end_of;
use crate::numbers::read_number;
use crate::verdict::Verdict;
use std::alloc::{AllocError, Global};

const SPACE: u8 = b' ';

/// The verdict that a word is. A place above [`MOST_NUMBER`](crate::MOST_NUMBER) is read as that. None where the word
/// is no verdict.
pub fn read_word(word: &[u8]) -> Option<Verdict>
    ensures { MatchOption result ((verdict : Verdict) → Says verdict word.now → ⊥) (IsRead word.now) }
{
    if word.is_empty() {
        return None;
    }
    if word[0] == b'd' {
        return match read_number(&word[1..]) {
            Some(place) => Some(Verdict::Dominated { place }),
            None => None,
        };
    }
    if word.len() > 1 {
        return None;
    }
    match word[0] {
        b'c' => Some(Verdict::Complete),
        b'f' => Some(Verdict::Failed),
        b'q' => Some(Verdict::Limited),
        b's' => Some(Verdict::Late),
        b'k' => Some(Verdict::Kept),
        _ => None,
    }
}

/// The verdicts of a line of so many, joined by single spaces; a line of none is empty. Places above
/// [`MOST_NUMBER`](crate::MOST_NUMBER) are read as that. None where the line isn't so many verdicts; an error only for
/// want of memory.
pub fn read_row(
    alloc: Global,
    line: &[u8],
    count: usize,
) -> Result<Option<Vec<Verdict>>, AllocError>
    ensures { IfOk result (λ row.
        MatchOption row (IsNoRow line.now count) (λ verdicts. IsReadRow line.now count verdicts.items)) }
{
    let mut row = Vec::with_capacity(alloc, count)?;
    if count == 0 {
        return Ok(if line.is_empty() { Some(row) } else { None });
    }
    let mut from = 0;
    for read in 0..count - 1 {
        let rest = &line[from..];
        let end = match end_of(rest, SPACE) {
            Some(end) => end,
            None => return Ok(None),
        };
        let verdict = match read_word(&rest[..end]) {
            Some(verdict) => verdict,
            None => return Ok(None),
        };
        row.push(verdict)?;
        from += end + 1;
    }
    let last = &line[from..];
    match end_of(last, SPACE) {
        Some(_) => Ok(None),
        None => {
            match read_word(last) {
                Some(verdict) => {
                    row.push(verdict)?;
                    Ok(Some(row))
                }
                None => Ok(None),
            }
        }
    }
}
