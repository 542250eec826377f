// Whether a row holds.
ghost use Rattle.std.specs.Prelude.{◌≡◌, ◌≤◌, ◌+◌, ◌↔◌, IsTrue, IfOk, All, length};
ghost use Rattle.certificate_text.specs.declared.numbers.TheConstants.{MOST_NUMBER};
ghost use Rattle.front_check.specs.Judging.{bounds_of, claim_of, IsBegun, IsClaimed, RowObeys};

use crate::judge::{Claimed, holds};
use crate::kept::Kept;
use crate::limits::Limits;
use certificate_text::read_row;
use std::alloc::AllocError;

/// Whether a line is one verdict for each legal action after a kept prefix, and each holds.
pub(crate) fn obeys<L: Limits>(
    limits: &mut L,
    claimed: &Claimed<'_>,
    next: &[Kept],
    p: &Kept,
    line: &[u8],
) -> Result<bool, AllocError>
    requires bounds { L.bounds limits.old ≡ bounds_of claimed.now }
    requires claimed { IsClaimed claimed.now }
    requires p { IsBegun claimed.now.g.now p.now }
    requires short { p.now.seconds ≤ 1000 }
    requires next { All (λ q. length q.actions ≡ length p.now.actions + 1) next.now }
    requires few { length next.now ≤ MOST_NUMBER }
    ensures value { IfOk result (λ good. IsTrue good ↔ RowObeys (claim_of claimed.now) next.now p.now line.now) }
    ensures still { L.bounds limits.new ≡ L.bounds limits.old }
{
    let alloc = claimed.alloc;
    let actions = p.legal(alloc, claimed.g);
    let listed = actions.as_slice();
    let found = read_row(alloc, line, listed.len())?;
    match found {
        Some(row) => {
            let verdicts = row.as_slice();
            let mut child = p.copied(alloc)?;
            for place in 0..listed.len() {
                child.turn(claimed.g, p, listed[place])?;
                if !holds(limits, claimed, next, &child, verdicts[place]) {
                    return Ok(false);
                }
            }
            Ok(true)
        }
        None => Ok(false),
    }
}
