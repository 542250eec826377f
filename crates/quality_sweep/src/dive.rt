// A first look for a good quality, so that the sweep may cut more.
ghost use Rattle.std.specs.Prelude.{IfOk, IfSome, OnOk, Contains};
ghost use Rattle.quality_sweep.specs.declared.candidate.Candidate.{Candidate as CandidateFields};
ghost use Rattle.quality_sweep.specs.Ahead.{IsOutlook, IsReachedFrom};

use crate::above::first;
use crate::candidate::Candidate;
use crate::ceiling::Ceiling;
use crate::expand::explore;
use crate::outlook::Outlook;
use crate::places::DEPTH;
use crate::quality::is_above;
use action_table::WantMemory;
use pareto_front::Kept;
use std::alloc::Global;

// How many states are kept of a level, dive after dive. These dives cost next to nothing and often reach the cap.
const NARROW: [usize; 2] = [30, 300];

// How many are kept by the dive after them.
const WIDE: usize = 3000;

// How many are kept where the wide dive still found more than the narrow ones.
const WIDEST: usize = 30000;

/// A quality with which some list completes the craft from the state, found soon. It needn't be the greatest, and None
/// says only that narrow dives find no such list. Errors: only where memory runs out.
pub fn quick_from<C: Ceiling>(
    alloc: Global,
    outlook: &Outlook<'_, C>,
) -> Result<Option<u32>, WantMemory>
    requires looks { IsOutlook outlook.now.g.now (C.allows outlook.now.ceiling.now) (C.limit_of outlook.now.ceiling.now)
        outlook.now.from.now }
    ensures { IfOk result (λ best. IfSome best (IsReachedFrom outlook.now.g.now outlook.now.from.now)) }
{
    let mut best = None;
    for width in NARROW {
        best = dive_once(alloc, outlook, width, best)?;
    }
    Ok(best)
}

/// A quality with which some list completes the craft, if one is found. Dives of more and more width go on until one
/// reaches the cap; the widest is for crafts where width still helps.
pub(crate) fn dive<C: Ceiling>(
    alloc: Global,
    outlook: &Outlook<'_, C>,
) -> Result<Option<u32>, WantMemory>
    requires looks { IsOutlook outlook.now.g.now (C.allows outlook.now.ceiling.now) (C.limit_of outlook.now.ceiling.now)
        outlook.now.from.now }
    ensures { IfOk result (λ best. IfSome best (IsReachedFrom outlook.now.g.now outlook.now.from.now)) }
{
    let before = quick_from(alloc, outlook)?;
    let best = dive_once(alloc, outlook, WIDE, before)?;
    if best == before {
        Ok(best)
    } else {
        dive_once(alloc, outlook, WIDEST, best)
    }
}

// One dive, level by level, with so many states of each level at most.
fn dive_once<C: Ceiling>(
    alloc: Global,
    outlook: &Outlook<'_, C>,
    width: usize,
    best: Option<u32>,
) -> Result<Option<u32>, WantMemory>
    requires looks { IsOutlook outlook.now.g.now (C.allows outlook.now.ceiling.now) (C.limit_of outlook.now.ceiling.now)
        outlook.now.from.now }
    requires reached { IfSome best (IsReachedFrom outlook.now.g.now outlook.now.from.now) }
    ensures { IfOk result (λ best. IfSome best (IsReachedFrom outlook.now.g.now outlook.now.from.now)) }
{
    let mut best = best;
    let mut found = Vec::new(alloc);
    let mut level = Vec::new(alloc);
    level.push(first(outlook))?;
    for _step in 0..DEPTH {
        if level.is_empty() || !is_above(outlook.g.cap(), best) {
            return Ok(best);
        }
        best = explore(outlook, &level, &mut found, best)?;
        choose_highest(alloc, &mut found, width, &mut level)?;
    }
    Ok(best)
}

// Of the found states so many with the greatest ranks, without those that another of them covers.
fn choose_highest(
    alloc: Global,
    found: &mut [Candidate],
    width: usize,
    level: &mut Vec<Candidate>,
) -> Result<(), WantMemory>
    ensures { OnOk result ((c : CandidateFields) → Contains level.new.items c → Contains found.old c) }
{
    found.sort_unstable_by_key(|c| u32::MAX - c.rank);
    level.clear();
    let mut kept = Kept::new(alloc);
    for candidate in found.iter() {
        if level.len() == width {
            return Ok(());
        }
        if kept.offer(&candidate.state)? {
            level.push(*candidate)?;
        }
    }
    Ok(())
}
