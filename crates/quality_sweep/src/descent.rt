// From above down to the greatest quality.
ghost use Rattle.std.specs.Prelude.{IfOk, IfSome};
ghost use Rattle.quality_sweep.specs.Ahead.{IsGreatestQualityFrom, IsOutlook, IsReachedFrom};

use crate::above::{first, sweep_above};
use crate::ceiling::Ceiling;
use crate::dive::dive;
use crate::expand::explore;
use crate::outlook::Outlook;
use crate::quality::is_above;
use action_table::WantMemory;
use std::alloc::Global;

// By which part of the first limit the floor falls from sweep to sweep.
const PARTS: u32 = 80;

/// The greatest quality that counts, in points, with which a list completes the craft from the state. None exactly where no
/// list completes it. Errors: only where memory runs out.
pub fn greatest_from<C: Ceiling>(
    alloc: Global,
    outlook: &Outlook<'_, C>,
) -> Result<Option<u32>, WantMemory>
    requires looks { IsOutlook outlook.now.g.now (C.allows outlook.now.ceiling.now) (C.limit_of outlook.now.ceiling.now)
        outlook.now.from.now }
    ensures { IfOk result (IsGreatestQualityFrom outlook.now.g.now outlook.now.from.now) }
{
    let reached = dive(alloc, outlook)?;
    if !is_above(outlook.g.cap(), reached) {
        return Ok(reached);
    }
    descend(alloc, outlook, reached)
}

// Sweeps from lower and lower floors until one finds more than its floor. The last floor is what was reached.
fn descend<C: Ceiling>(
    alloc: Global,
    outlook: &Outlook<'_, C>,
    reached: Option<u32>,
) -> Result<Option<u32>, WantMemory>
    requires looks { IsOutlook outlook.now.g.now (C.allows outlook.now.ceiling.now) (C.limit_of outlook.now.ceiling.now)
        outlook.now.from.now }
    requires reached { IfSome reached (IsReachedFrom outlook.now.g.now outlook.now.from.now) }
    ensures { IfOk result (IsGreatestQualityFrom outlook.now.g.now outlook.now.from.now) }
{
    let top = top_of(alloc, outlook)?;
    let mut floor = top;
    for _turn in 0..PARTS {
        floor = floor.saturating_sub(top / PARTS + 1);
        if floor == 0 || !is_above(floor, reached) {
            return finish(alloc, outlook, reached);
        }
        let found = sweep_above(alloc, outlook, Some(floor))?;
        if found.is_some() {
            return Ok(found);
        }
    }
    finish(alloc, outlook, reached)
}

// The sweep above what was reached, which remains where nothing more is found.
fn finish<C: Ceiling>(
    alloc: Global,
    outlook: &Outlook<'_, C>,
    reached: Option<u32>,
) -> Result<Option<u32>, WantMemory>
    requires looks { IsOutlook outlook.now.g.now (C.allows outlook.now.ceiling.now) (C.limit_of outlook.now.ceiling.now)
        outlook.now.from.now }
    requires reached { IfSome reached (IsReachedFrom outlook.now.g.now outlook.now.from.now) }
    ensures { IfOk result (IsGreatestQualityFrom outlook.now.g.now outlook.now.from.now) }
{
    let found = sweep_above(alloc, outlook, reached)?;
    if found.is_some() {
        return Ok(found);
    }
    Ok(reached)
}

// The greatest limit after one step, which the floors begin below.
fn top_of<C: Ceiling>(alloc: Global, outlook: &Outlook<'_, C>) -> Result<u32, WantMemory>
    requires looks { IsOutlook outlook.now.g.now (C.allows outlook.now.ceiling.now) (C.limit_of outlook.now.ceiling.now)
        outlook.now.from.now }
{
    let mut batch = Vec::new(alloc);
    batch.push(first(outlook))?;
    let mut found = Vec::new(alloc);
    let best = explore(outlook, &batch, &mut found, None)?;
    let mut top = best.unwrap_or(0);
    for candidate in &found {
        top = top.max(candidate.limit);
    }
    Ok(outlook.g.cap().min(top))
}
