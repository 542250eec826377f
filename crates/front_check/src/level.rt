// Whether the rows of a level hold.
ghost use Rattle.std.specs.Prelude.{◌≡◌, ◌≤◌, ◌+◌, IfOk, All, length};
ghost use Rattle.certificate_text.specs.declared.numbers.TheConstants.{MOST_NUMBER};
ghost use Rattle.front_check.specs.Judging.{bounds_of, claim_of, IsClaimed};
ghost use Rattle.front_check.specs.Levels.{AreKept, IsRowsEnd, IsLevelEnd};
ghost use Rattle.front_check.specs.declared.checker.TheConstants.{MOST_TEXT};

use crate::ahead::look_ahead;
use crate::heading::begins_level;
use crate::judge::Claimed;
use crate::kept::Kept;
use crate::limits::Limits;
use crate::row::obeys;
use certificate_text::end_of;
use std::alloc::AllocError;

const LINE_END: u8 = b'\n';

/// Where the rows of a level end: at a line that breaks its rule, by its place among them, or with the text after them.
#[derive(Clone, Copy)]
pub(crate) enum RowsEnd {
    BrokenRow { place: usize },
    Whole { from: usize },
}

/// A level: its number, which is the length of its kept prefixes.
#[derive(Clone, Copy)]
pub(crate) struct Level<'a> {
    pub(crate) number: u32,
    pub(crate) kept: &'a [Kept],
}

/// Judges the rows of a level, where the next level has these kept prefixes.
pub(crate) fn judge_rows<L: Limits>(
    limits: &mut L,
    claimed: &Claimed<'_>,
    level: &Level<'_>,
    next: &[Kept],
    text: &[u8],
) -> Result<RowsEnd, AllocError>
    requires bounds { L.bounds limits.old ≡ bounds_of claimed.now }
    requires claimed { IsClaimed claimed.now }
    requires kept { AreKept claimed.now.g.now level.now.number level.now.kept.now }
    requires next { All (λ q. length q.actions ≡ level.now.number + 1) next.now }
    requires few { length next.now ≤ MOST_NUMBER }
    ensures value { IfOk result (
        IsRowsEnd claimed.now.g.now (claim_of claimed.now) level.now.number level.now.kept.now next.now text.now) }
    ensures still { L.bounds limits.new ≡ L.bounds limits.old }
{
    let kept = level.kept;
    let mut from = 0;
    for place in 0..kept.len() {
        let p = &kept[place];
        let rest = &text[from..];
        match end_of(rest, LINE_END) {
            None => return Ok(RowsEnd::BrokenRow { place }),
            Some(end) => {
                let good = obeys(limits, claimed, next, p, &rest[..end])?;
                if !good {
                    return Ok(RowsEnd::BrokenRow { place });
                }
                from += end + 1;
            }
        }
    }
    Ok(RowsEnd::Whole { from })
}

/// Where a level ends: at a line that breaks its rule, by its place from that of the level on; with the text; or with
/// the kept prefixes of the next level, and the text from there on.
#[derive(Drop)]
pub(crate) enum LevelEnd {
    Broken { place: usize },
    Last,
    Next { kept: Vec<Kept>, from: usize },
}

/// Judges the lines of a level, from its own on.
pub(crate) fn judge_level<L: Limits>(
    limits: &mut L,
    claimed: &Claimed<'_>,
    level: &Level<'_>,
    text: &[u8],
) -> Result<LevelEnd, AllocError>
    requires bounds { L.bounds limits.old ≡ bounds_of claimed.now }
    requires claimed { IsClaimed claimed.now }
    requires kept { AreKept claimed.now.g.now level.now.number level.now.kept.now }
    requires text { length text.now ≤ MOST_TEXT }
    ensures value { IfOk result (
        IsLevelEnd claimed.now.g.now (claim_of claimed.now) level.now.number level.now.kept.now text.now) }
    ensures still { L.bounds limits.new ≡ L.bounds limits.old }
{
    let end = match end_of(text, LINE_END) {
        None => return Ok(LevelEnd::Broken { place: 0 }),
        Some(end) => end,
    };
    let count = level.kept.len();
    let begins = begins_level(claimed.alloc, level.number, count, &text[..end])?;
    if !begins {
        return Ok(LevelEnd::Broken { place: 0 });
    }
    let rest = &text[end + 1..];
    if count == 0 {
        if rest.is_empty() {
            return Ok(LevelEnd::Last);
        }
        return Ok(LevelEnd::Broken { place: 1 });
    }
    let next = look_ahead(claimed.alloc, claimed.g, level.kept, rest)?;
    let coming = next.as_slice();
    let rows = judge_rows(limits, claimed, level, coming, rest)?;
    match rows {
        RowsEnd::BrokenRow { place } => Ok(LevelEnd::Broken { place: place + 1 }),
        RowsEnd::Whole { from } => Ok(LevelEnd::Next {
            kept: next,
            from: end + 1 + from,
        }),
    }
}
