// Whether all levels hold.
ghost use Rattle.std.specs.Prelude.{◌≡◌, ◌≤◌, IfOk, length};
ghost use Rattle.craft_settings.specs.Ranges.{AreSettings};
ghost use Rattle.front_check.specs.Judging.{bounds_of, claim_of, IsClaimed};
ghost use Rattle.front_check.specs.Levels.{IsJudged};
ghost use Rattle.front_check.specs.declared.checker.TheConstants.{MOST_TEXT};

use crate::judge::Claimed;
use crate::kept::Kept;
use crate::level::{Level, LevelEnd, judge_level};
use crate::limits::Limits;
use std::alloc::AllocError;
use step_rules::MOST_STEPS;

// No legal macro has more than `MOST_STEPS` steps, so that the level after that has no kept prefix.
const LEVELS: u32 = MOST_STEPS + 2;

/// Judges the lines of all levels. None where they hold to the end of the text; else the first that breaks its rule,
/// counted from 0 from that of level 0 on.
pub(crate) fn judge_levels<L: Limits>(
    limits: &mut L,
    claimed: &Claimed<'_>,
    text: &[u8],
) -> Result<Option<usize>, AllocError>
    requires bounds { L.bounds limits.old ≡ bounds_of claimed.now }
    requires claimed { IsClaimed claimed.now }
    requires settings { AreSettings claimed.now.g.now }
    requires text { length text.now ≤ MOST_TEXT }
    ensures value { IfOk result (IsJudged claimed.now.g.now (claim_of claimed.now) text.now) }
    ensures still { L.bounds limits.new ≡ L.bounds limits.old }
{
    let mut kept = Vec::new(claimed.alloc);
    kept.push(Kept::empty(claimed.alloc, claimed.g))?;
    let mut from = 0;
    let mut lines = 0;
    for number in 0..LEVELS {
        let level = Level {
            number,
            kept: kept.as_slice(),
        };
        let end = judge_level(limits, claimed, &level, &text[from..])?;
        match end {
            LevelEnd::Broken { place } => return Ok(Some(lines + place)),
            LevelEnd::Last => return Ok(None),
            LevelEnd::Next {
                kept: next,
                from: passed,
            } => {
                lines += kept.len() + 1;
                kept = next;
                from += passed;
            }
        }
    }
    unreachable!()
}
