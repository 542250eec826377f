// The search for the least base quality that is enough.
ghost use Rattle.std.specs.Prelude.{◌≡◌, ◌≤◌, ◌<◌, ◌+◌, ◌-◌, ◌*◌, ◌/◌, IfOk, MatchOption};
ghost use Rattle.macro_order.specs.Order.{IsBest, NothingCompletes, score_of};
ghost use Rattle.stat_sweep.specs.Bases.{with_base, IsEnough};
ghost use Rattle.stat_sweep.specs.Sweeping.{IsSwept};
ghost use Rattle.stat_sweep.specs.Halving.{IsTried, is_full, scaled_of, expected_of};

use crate::plan::Plan;
use crate::solver::Solver;
use crate::swept::Swept;
use crate::{MOST_BASE, MOST_CALLS};
use action_table::{Action, WantMemory};
use craft_settings::Settings;
use macro_order::score;
use std::alloc::Global;

// The best macro at a base quality, and whether its quality is all that counts.
#[derive(Drop)]
pub(crate) struct Tried {
    pub plan: Plan,
    pub is_enough: bool,
}

// Base qualities between which the least one lies that is enough: `low` isn't, or is 0, and `high` is. Each comes
// with its best macro, but for 0.
#[derive(Drop)]
struct Range {
    low: u32,
    below: Option<Plan>,
    high: u32,
    at: Plan,
}

// Asks for the best macro at a base quality.
pub(crate) fn best_at<V: Solver>(
    alloc: Global,
    g: &Settings,
    base: u32,
    solver: &mut V,
) -> Result<Option<Tried>, WantMemory>
    requires low { 1 ≤ base }
    requires high { base ≤ MOST_BASE }
    requires calls { V.calls solver.old < MOST_CALLS }
    requires ready { V.ready solver.old }
    ensures best { IfOk result (λ found. MatchOption found (NothingCompletes g.now) (IsTried g.now base)) }
    ensures calls { V.calls solver.new ≡ V.calls solver.old + 1 }
    ensures ready { V.ready solver.new }
{
    let crafter = Settings {
        base_quality: base,
        ..*g
    };
    let Some(actions) = solver.solve(alloc, &crafter)? else {
        return Ok(None);
    };
    let is_enough = is_full(&crafter, &actions);
    Ok(Some(Tried {
        plan: Plan { actions },
        is_enough,
    }))
}

// Whether a macro completes the craft with all the quality that counts.
fn is_full(g: &Settings, actions: &[Action]) -> bool
    ensures { result ≡ is_full g.now (score_of g.now actions.now) }
{
    match score(g, actions) {
        Some(score) => score.quality == g.cap(),
        None => false,
    }
}

// How long a range may be after the second call, so that the calls that are then left suffice to halve it down to 1.
const FIRST_ROOM: u32 = 4096;

// Narrows the range of base qualities until the least one that is enough is left. The macro is the best at the
// greatest base quality, which is enough.
pub(crate) fn halve<V: Solver>(
    alloc: Global,
    g: &Settings,
    most: Plan,
    solver: &mut V,
) -> Result<Swept, WantMemory>
    requires best { IsBest (with_base g.now MOST_BASE) most }
    requires enough { IsEnough g.now MOST_BASE }
    requires calls { V.calls solver.old ≡ 1 }
    requires ready { V.ready solver.old }
    ensures swept { IfOk result (IsSwept g.now) }
    ensures calls { V.calls solver.new ≤ MOST_CALLS }
{
    let mut range = Range {
        low: 0,
        below: None,
        high: MOST_BASE,
        at: most,
    };
    let mut room = FIRST_ROOM;
    while range.high - range.low > 1 {
        let base = next_base(g, &range, room);
        room /= 2;
        let Some(tried) = best_at(alloc, g, base, solver)? else {
            unreachable!()
        };
        if tried.is_enough {
            range.high = base;
            range.at = tried.plan;
        } else {
            range.low = base;
            range.below = Some(tried.plan);
        }
    }
    Ok(Swept::Least {
        base: range.high,
        at: range.at,
        below: range.below,
    })
}

// The base quality that is asked for next: the expected one, or the nearest to it that leaves no range longer than the
// room.
fn next_base(g: &Settings, range: &Range, room: u32) -> u32
    requires wide { range.now.low + 1 < range.now.high }
    requires most { range.now.high ≤ MOST_BASE }
    requires room { range.now.high ≤ range.now.low + 2 * room }
    requires few { room ≤ FIRST_ROOM }
    ensures low { range.now.low < result }
    ensures high { result < range.now.high }
    ensures near { result ≤ range.now.low + room }
    ensures far { range.now.high ≤ result + room }
{
    let least = (range.low + 1).max(range.high.saturating_sub(room));
    let most = (range.high - 1).min(range.low + room);
    expected(g, range).max(least).min(most)
}

// About which base quality is the least that is enough, if the macro that falls short gained quality in proportion to it.
// The middle of the range where there is no such macro.
fn expected(g: &Settings, range: &Range) -> u32
    requires order { range.now.low < range.now.high }
    requires most { range.now.high ≤ MOST_BASE }
    ensures { result ≡ expected_of g.now range.now.low (range.now.low + (range.now.high - range.now.low) / 2) range.now.below }
{
    let middle = range.low + (range.high - range.low) / 2;
    let Some(plan) = &range.below else {
        return middle;
    };
    let crafter = Settings {
        base_quality: range.low.max(1),
        ..*g
    };
    match score(&crafter, &plan.actions) {
        Some(score) => scaled(g, range.low, score.quality),
        None => middle,
    }
}

// A base quality that is as much greater as all quality that counts is than a quality, each without the initial one.
fn scaled(g: &Settings, base: u32, quality: u32) -> u32
    requires { base ≤ MOST_BASE }
    ensures { result ≡ scaled_of g.now base quality }
{
    let wanted = g.cap().saturating_sub(g.initial) as u64;
    let gained = quality.saturating_sub(g.initial).max(1) as u64;
    (base as u64 * wanted)
        .div_ceil(gained)
        .min(MOST_BASE as u64) as u32
}
