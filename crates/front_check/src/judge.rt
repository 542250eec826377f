// Whether a verdict holds.
ghost use Rattle.std.specs.Prelude.{◌≡◌, ◌-◌, ◌≤◌, ◌↔◌, true, false, IsTrue, All, length, slice_get};
ghost use Rattle.craft_state.specs.NotLess.{is_not_less};
ghost use Rattle.prefix_fronts.specs.Prefix.{Prefix, dominates};
ghost use Rattle.relaxed_moves.specs.Optimum.{limit_of, within_of};
ghost use Rattle.certificate_laws.specs.Claims.{score_at, is_below, is_at_most, IsTooLong, Holds};
ghost use Rattle.front_check.specs.Judging.{bounds_of, claim_of, IsBegun, IsClaimed};
ghost use Rattle.step_rules.specs.Legality.{is_complete, is_over};

use crate::kept::Kept;
use crate::limits::Limits;
use action_table::Action;
use certificate_text::Verdict;
use craft_settings::Settings;
use craft_state::State;
use macro_order::{Score, better, is_before};
use std::alloc::Global;
use step_rules::is_final;

/// What a certificate is about, and where memory is taken.
#[derive(Drop)]
pub struct Claimed<'a> {
    pub alloc: Global,
    pub g: &'a Settings,
    pub grain: u32,
    pub actions: &'a [Action],
    pub score: Score,
}

/// Whether a prefix completes the craft, no better than the macro.
pub(crate) fn is_no_better(claimed: &Claimed<'_>, next: &[Kept], p: &Kept) -> bool
    requires claimed { IsClaimed claimed.now }
    requires p { IsBegun claimed.now.g.now p.now }
    ensures { IsTrue result ↔ Holds (claim_of claimed.now) next.now p.now Verdict.Complete }
{
    if !p.is_complete(claimed.g) {
        return false;
    }
    let mine = p.score(claimed.g);
    let listed = p.listed();
    let wins = better(&mine, listed, &claimed.score, claimed.actions);
    !wins
}

/// Whether a prefix is over and not complete.
pub(crate) fn is_failed(g: &Settings, s: &State) -> bool
    ensures { IsTrue result ↔ ((s.now.durability ≡ 0) × (is_complete g.now s.now ≡ false)) }
{
    s.durability == 0 && s.progress != g.progress
}

/// Whether a live prefix, whose limit this is, can't reach the quality.
pub(crate) fn is_limited(claimed: &Claimed<'_>, next: &[Kept], p: &Kept, limit: Option<u32>) -> bool
    requires { limit ≡ limit_of claimed.now.g.now claimed.now.grain p.now.state }
    ensures { IsTrue result ↔ Holds (claim_of claimed.now) next.now p.now Verdict.Limited }
{
    p.is_live(claimed.g) && is_below(limit, claimed.score.quality)
}

/// Whether a live prefix, whose limits these are, can't reach more than the quality, nor as much in as few steps.
pub(crate) fn is_late(
    claimed: &Claimed<'_>,
    next: &[Kept],
    p: &Kept,
    limit: Option<u32>,
    within: Option<u32>,
) -> bool
    requires limit { limit ≡ limit_of claimed.now.g.now claimed.now.grain p.now.state }
    requires within { within ≡ within_of claimed.now.g.now claimed.now.grain p.now.state (claimed.now.score.steps - length p.now.actions) }
    ensures { IsTrue result ↔ Holds (claim_of claimed.now) next.now p.now Verdict.Late }
{
    p.is_live(claimed.g)
        && is_at_most(limit, claimed.score.quality)
        && is_too_long(claimed, p, within)
}

// Whether the steps of the macro don't suffice for its quality through a prefix.
fn is_too_long(claimed: &Claimed<'_>, p: &Kept, within: Option<u32>) -> bool
    requires { within ≡ within_of claimed.now.g.now claimed.now.grain p.now.state (claimed.now.score.steps - length p.now.actions) }
    ensures { IsTrue result ↔ IsTooLong (claim_of claimed.now) p.now }
{
    if claimed.score.steps as usize <= p.steps() {
        true
    } else {
        is_below(within, claimed.score.quality)
    }
}

/// Whether a live prefix is dominated by the kept prefix at a place.
pub(crate) fn is_dominated(claimed: &Claimed<'_>, next: &[Kept], p: &Kept, place: u32) -> bool
    requires { All (λ q. length q.actions ≡ length p.now.actions) next.now }
    ensures { IsTrue result ↔ Holds (claim_of claimed.now) next.now p.now (Verdict.Dominated place) }
{
    p.is_live(claimed.g) && is_outdone(next, p, place as usize)
}

/// Whether a limit is none, or less than a quality.
pub fn is_below(limit: Option<u32>, quality: u32) -> bool
    ensures { result ≡ is_below limit quality }
{
    match limit {
        None => true,
        Some(limit) => limit < quality,
    }
}

/// Whether a limit is none, or at most a quality.
pub fn is_at_most(limit: Option<u32>, quality: u32) -> bool
    ensures { result ≡ is_at_most limit quality }
{
    match limit {
        None => true,
        Some(limit) => limit <= quality,
    }
}

/// Whether the kept prefix at a place dominates a prefix of the same length.
pub(crate) fn is_outdone(next: &[Kept], p: &Kept, place: usize) -> bool
    requires { All (λ q. length q.actions ≡ length p.now.actions) next.now }
    ensures { IsTrue result ↔ ((q : Prefix) × (slice_get next.now place ≡ Some q) × (dominates q p.now ≡ true)) }
{
    if place < next.len() {
        next[place].outdoes(p)
    } else {
        false
    }
}

impl Kept {
    /// Whether the craft goes on after the prefix.
    fn is_live(&self, g: &Settings) -> bool
        ensures { IsTrue result ↔ (is_over g.now self.now.state ≡ false) }
    {
        !is_final(g, &self.state)
    }

    /// Whether the prefix completes the craft.
    fn is_complete(&self, g: &Settings) -> bool
        ensures { result ≡ is_complete g.now self.now.state }
    {
        self.state.progress == g.progress
    }

    /// The actions.
    fn listed(&self) -> &[Action]
        ensures { result.now ≡ self.now.actions }
    {
        self.actions.as_slice()
    }

    /// The score of a prefix that completes the craft.
    fn score(&self, g: &Settings) -> Score
        requires { length self.now.actions ≤ 1000 }
        ensures { result ≡ score_at g.now self.now }
    {
        Score {
            quality: self.state.quality.min(g.cap()),
            steps: self.actions.len() as u32,
            seconds: self.seconds,
        }
    }

    /// The number of actions.
    fn steps(&self) -> usize
        ensures { result ≡ length self.now.actions }
    {
        self.actions.len()
    }

    /// Whether this prefix dominates another of the same length.
    #[tactic(auto, unfolding(prefix_fronts::specs::Prefix::dominates))]
    fn outdoes(&self, other: &Kept) -> bool
        requires { length self.now.actions ≡ length other.now.actions }
        ensures { result ≡ dominates self.now other.now }
    {
        covers(&self.state, &other.state)
            && (self.seconds < other.seconds
                || (self.seconds == other.seconds
                    && is_before(self.actions.as_slice(), other.actions.as_slice())))
    }
}

/// Whether the first of two states isn't less than the second: it has the same progress and effects, and no less CP,
/// durability and quality.
#[tactic(auto, unfolding(craft_state::specs::NotLess::is_not_less, craft_state::specs::NotLess::same_effects))]
pub fn covers(a: &State, b: &State) -> bool
    ensures { result ≡ is_not_less a.now b.now }
{
    a.progress == b.progress
        && a.effects == b.effects
        && a.cp >= b.cp
        && a.durability >= b.durability
        && a.quality >= b.quality
}

/// Whether a verdict holds of a prefix.
pub(crate) fn holds<L: Limits>(
    limits: &mut L,
    claimed: &Claimed<'_>,
    next: &[Kept],
    p: &Kept,
    verdict: Verdict,
) -> bool
    requires bounds { L.bounds limits.old ≡ bounds_of claimed.now }
    requires claimed { IsClaimed claimed.now }
    requires p { IsBegun claimed.now.g.now p.now }
    requires next { All (λ q. length q.actions ≡ length p.now.actions) next.now }
    ensures value { IsTrue result ↔ Holds (claim_of claimed.now) next.now p.now verdict }
    ensures still { L.bounds limits.new ≡ L.bounds limits.old }
{
    match verdict {
        Verdict::Complete => is_no_better(claimed, next, p),
        Verdict::Failed => is_failed(claimed.g, &p.state),
        Verdict::Limited => {
            let limit = limits.limit(&p.state);
            is_limited(claimed, next, p, limit)
        }
        Verdict::Late => {
            let left = claimed.score.steps.saturating_sub(p.steps() as u32);
            let limit = limits.limit(&p.state);
            let within = limits.within(&p.state, left);
            is_late(claimed, next, p, limit, within)
        }
        Verdict::Dominated { place } => is_dominated(claimed, next, p, place),
        Verdict::Kept => p.is_live(claimed.g),
    }
}
