// A whole certificate.
ghost use Rattle.std.specs.Prelude.{◌≡◌, ◌≤◌, ◌⊎◌, ℕ, length, List, IfOk, MatchResult};
ghost use Rattle.action_table.specs.declared.action.Action.{Action as ActionFields};
ghost use Rattle.craft_settings.specs.Ranges.{AreSettings};
ghost use Rattle.certificate_laws.specs.Certificate.{IsCertificate};
ghost use Rattle.certificate_laws.specs.Lines.{IsFirstFault};
ghost use Rattle.front_check.specs.Verified.{IsFault};
ghost use Rattle.front_check.specs.declared.checker.CertFault.TheVariants.{Refused, WantMemory};
ghost use Rattle.macro_order.specs.Order.{IsBest};

use crate::judge::Claimed;
use crate::levels::judge_levels;
use crate::limits::Limits;
use crate::opening::{Opening, read_opening};
use crate::tables::Tables;
use action_table::Action;
use craft_settings::Settings;
use std::alloc::{AllocError, Global};

/// The most bytes of a certificate that is checked.
pub const MOST_TEXT: usize = 16777216;

/// Why a text is no certificate.
#[derive(Debug, PartialEq, Eq, Drop)]
pub enum CertFault {
    /// The first line that breaks a rule, counted from 1.
    Refused { line: u32 },
    /// Memory ran out.
    WantMemory,
}

impl From<AllocError> for CertFault {
    ghost from_gives = { λ _ e. e ≡ WantMemory };

    fn from(_error: AllocError) -> CertFault {
        CertFault::WantMemory
    }
}

impl From<action_table::WantMemory> for CertFault {
    ghost from_gives = { λ _ e. e ≡ WantMemory };

    fn from(_error: action_table::WantMemory) -> CertFault {
        CertFault::WantMemory
    }
}

/// The macro of the certificate that the bytes are, which is the best macro of the craft. The bytes are at most `MOST_TEXT`.
///
/// Where they are a certificate for a macro, the answer is this macro, or want of memory. Where they are a certificate
/// for none, it is the first line that breaks a rule, counted from 1, or want of memory. No search is called: it rests
/// on the rules of the craft and on the two bounds, and takes memory for two tables of bounds and two levels.
pub fn verify(alloc: Global, g: &Settings, bytes: &[u8]) -> Result<Vec<Action>, CertFault>
    requires { length bytes.now ≤ MOST_TEXT }
    ensures read { MatchResult result (λ actions. IsCertificate g.now bytes.now actions.items) (IsFault g.now bytes.now) }
    ensures certificate { (m : List ActionFields) → IsCertificate g.now bytes.now m →
        MatchResult result (λ actions. actions.items ≡ m) (λ fault. fault ≡ WantMemory) }
    ensures fault { (line : ℕ) → IsFirstFault g.now bytes.now line →
        MatchResult result (λ actions. ⊥) (λ fault. (fault ≡ Refused line) ⊎ (fault ≡ WantMemory)) }
    ensures best { IfOk result (λ actions. IsBest g.now actions.items) }
{
    // Settings are within their ranges, which is known where one of their fields is read.
    let _level = g.level;
    verify_by::<Tables>(alloc, g, bytes)
}

// The answer to a text, by limits that are made for its grain.
pub(crate) fn verify_by<L: Limits>(
    alloc: Global,
    g: &Settings,
    bytes: &[u8],
) -> Result<Vec<Action>, CertFault>
    requires settings { AreSettings g.now }
    requires few { length bytes.now ≤ MOST_TEXT }
    ensures { MatchResult result (λ actions. IsCertificate g.now bytes.now actions.items) (IsFault g.now bytes.now) }
{
    let opening = read_opening(alloc, g, bytes)?;
    match opening {
        Opening::BrokenLine { place } => Err(CertFault::Refused {
            line: place as u32 + 1,
        }),
        Opening::Named {
            grain,
            actions,
            score,
            from,
        } => {
            let mut limits = L::make(alloc, g, grain)?;
            let claimed = Claimed {
                alloc,
                g,
                grain,
                actions: actions.as_slice(),
                score,
            };
            let broken = judge_levels(&mut limits, &claimed, &bytes[from..])?;
            match broken {
                None => Ok(actions),
                Some(place) => Err(CertFault::Refused {
                    line: place as u32 + 3,
                }),
            }
        }
    }
}
