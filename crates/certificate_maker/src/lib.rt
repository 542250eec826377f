//! The maker of certificates: level by level it says of each legal action after each kept prefix why no better macro
//! begins so.
#![tactic(auto)]

ghost use Rattle.std.specs.Prelude.{◌≤◌, IfOk};
ghost use Rattle.craft_settings.specs.Ranges.{AreSettings};
ghost use Rattle.macro_order.specs.Order.{IsBest};
ghost use Rattle.certificate_laws.specs.Certificate.{IsCertificate};
ghost use Rattle.certificate_laws.specs.Made.{IsMade};
ghost use Rattle.front_check.specs.Judging.{claim_of};
ghost use Rattle.certificate_maker.specs.Written.{IsWritten};

mod levels;
mod marks;
mod rivals;
mod settle;
mod stage;
#[cfg(test)]
mod tests;
mod written;

use action_table::{Action, WantMemory};
use craft_settings::Settings;
use front_check::{Claimed, Limits, Tables};
use levels::write_levels;
use macro_order::score;
use std::alloc::Global;
use std::thread::Threads;

/// The certificate that is made for the best macro of a craft, with limits of a grain from 1 to 64. Its checker accepts
/// it. Level by level each live child of a kept prefix is `q` where its limit shows that it loses, else `s` where the
/// limits show that it takes too long, else `d` with the first kept prefix of its level that dominates it, else `k`.
/// `actions` is the best macro of the craft. The workers and threads change nothing of the bytes. Errors: only where memory
/// runs out.
pub fn certify(
    rt: &(impl Threads + Sync),
    alloc: Global,
    g: &Settings,
    grain: u32,
    actions: &[Action],
) -> Result<Vec<u8>, WantMemory>
    requires low { 1 ≤ grain }
    requires high { grain ≤ 64 }
    requires best { IsBest g.now actions.now }
    ensures made { IfOk result (λ bytes. IsMade g.now grain actions.now bytes.items) }
    ensures certificate { IfOk result (λ bytes. IsCertificate g.now bytes.items actions.now) }
{
    // Settings are within their ranges, which is known where one of their fields is read.
    let _level = g.level;
    match score(g, actions) {
        None => unreachable!(),
        Some(score) => {
            let claimed = Claimed {
                alloc,
                g,
                grain,
                actions,
                score,
            };
            let bytes = certify_by::<Tables, _>(rt, &claimed)?;
            Ok(bytes)
        }
    }
}

// The certificate of the claimed macro, by limits that are made for its grain.
fn certify_by<L: Limits, R: Threads + Sync>(
    rt: &R,
    claimed: &Claimed<'_>,
) -> Result<Vec<u8>, WantMemory>
    requires settings { AreSettings claimed.now.g.now }
    requires low { 1 ≤ claimed.now.grain }
    requires high { claimed.now.grain ≤ 64 }
    ensures { IfOk result (λ bytes. IsWritten (claim_of claimed.now) bytes.items) }
{
    let mut limits = L::make(claimed.alloc, claimed.g, claimed.grain)?;
    write_levels(rt, &mut limits, claimed)
}
