// The verdict of a state apart from the others of its level.
ghost use Rattle.std.specs.Prelude.{◌≡◌, ◌==◌, ◌||◌};
ghost use Rattle.relaxed_moves.specs.Optimum.{within_of};
ghost use Rattle.front_check.specs.Judging.{bounds_of, claim_of, MayAsk};
ghost use Rattle.certificate_laws.specs.Claims.{is_below};
ghost use Rattle.certificate_laws.specs.Made.{settled};
ghost use Rattle.certificate_maker.specs.Marks.{IsAsked};

use crate::stage::Stage;
use certificate_text::Verdict;
use craft_state::State;
use front_check::{Limits, is_at_most, is_below};
use step_rules::{is_complete, is_final};

/// The verdict of a state, where it has one apart from the others of its level. Else it may win, and they decide.
pub(crate) fn settle<L: Limits>(limits: &mut L, stage: &Stage<'_, '_>, s: &State) -> Option<Verdict>
    requires bounds { L.bounds limits.old ≡ bounds_of stage.now.claimed.now }
    requires ask { MayAsk (bounds_of stage.now.claimed.now) s.now }
    ensures verdict { result ≡ settled (claim_of stage.now.claimed.now) stage.now.left s.now }
    ensures still { L.bounds limits.new ≡ L.bounds limits.old }
{
    let claimed = stage.claimed;
    if is_complete(claimed.g, s) {
        return Some(Verdict::Complete);
    }
    if is_final(claimed.g, s) {
        return Some(Verdict::Failed);
    }
    let limit = limits.limit(s);
    settle_live(limits, stage, s, limit)
}

// The same, of a live state whose limit this is.
fn settle_live<L: Limits>(
    limits: &mut L,
    stage: &Stage<'_, '_>,
    s: &State,
    limit: Option<u32>,
) -> Option<Verdict>
    requires bounds { L.bounds limits.old ≡ bounds_of stage.now.claimed.now }
    requires ask { MayAsk (bounds_of stage.now.claimed.now) s.now }
    requires asked { IsAsked (claim_of stage.now.claimed.now) s.now limit }
    ensures verdict { result ≡ settled (claim_of stage.now.claimed.now) stage.now.left s.now }
    ensures still { L.bounds limits.new ≡ L.bounds limits.old }
{
    let claimed = stage.claimed;
    if is_below(limit, claimed.score.quality) {
        return Some(Verdict::Limited);
    }
    if !is_at_most(limit, claimed.score.quality) {
        return None;
    }
    if is_short(limits, stage, s) {
        return Some(Verdict::Late);
    }
    None
}

// Whether the steps of the macro that are left don't suffice for its quality from a state.
fn is_short<L: Limits>(limits: &mut L, stage: &Stage<'_, '_>, s: &State) -> bool
    requires bounds { L.bounds limits.old ≡ bounds_of stage.now.claimed.now }
    requires ask { MayAsk (bounds_of stage.now.claimed.now) s.now }
    ensures value { let c = claim_of stage.now.claimed.now in
        result ≡ (stage.now.left == 0 || is_below (within_of c.g c.grain s.now stage.now.left) c.score.quality) }
    ensures still { L.bounds limits.new ≡ L.bounds limits.old }
{
    if stage.left == 0 {
        return true;
    }
    let within = limits.within(s, stage.left);
    is_below(within, stage.claimed.score.quality)
}
