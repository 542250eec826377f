// The first two lines.
ghost use Rattle.std.specs.Prelude.{◌≤◌, IfOk, length};
ghost use Rattle.front_check.specs.Levels.{IsOpening};
ghost use Rattle.front_check.specs.declared.checker.TheConstants.{MOST_TEXT};

use crate::naming::{read_best, read_grain};
use action_table::Action;
use certificate_text::end_of;
use craft_settings::Settings;
use macro_order::{Score, score};
use std::alloc::{AllocError, Global};

const LINE_END: u8 = b'\n';

/// What the first two lines name, and where the third begins; or which of the two is the first that breaks its rule.
#[derive(Drop)]
pub(crate) enum Opening {
    BrokenLine {
        place: usize,
    },
    Named {
        grain: u32,
        actions: Vec<Action>,
        score: Score,
        from: usize,
    },
}

/// Reads the first two lines.
pub(crate) fn read_opening(alloc: Global, g: &Settings, text: &[u8]) -> Result<Opening, AllocError>
    requires { length text.now ≤ MOST_TEXT }
    ensures { IfOk result (IsOpening g.now text.now) }
{
    let first = match end_of(text, LINE_END) {
        Some(end) => end,
        None => return Ok(Opening::BrokenLine { place: 0 }),
    };
    let grain = match read_grain(alloc, &text[..first])? {
        Some(grain) => grain,
        None => return Ok(Opening::BrokenLine { place: 0 }),
    };
    let rest = &text[first + 1..];
    let second = match end_of(rest, LINE_END) {
        Some(end) => end,
        None => return Ok(Opening::BrokenLine { place: 1 }),
    };
    let actions = match read_best(alloc, &rest[..second])? {
        Some(actions) => actions,
        None => return Ok(Opening::BrokenLine { place: 1 }),
    };
    match score(g, actions.as_slice()) {
        Some(score) => Ok(Opening::Named {
            grain,
            actions,
            score,
            from: first + 1 + (second + 1),
        }),
        None => Ok(Opening::BrokenLine { place: 1 }),
    }
}
