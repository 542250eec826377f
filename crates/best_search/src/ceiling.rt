// The greatest quality, under the limits of a table.
ghost use Rattle.std.specs.Prelude.{IfOk, IfSome, Some};
ghost use Rattle.prefix_fronts.specs.Prefix.{IsOpen};
ghost use Rattle.quality_sweep.specs.Ahead.{IsGreatestQualityFrom};
ghost use Rattle.best_search.specs.Looking.{IsFreeTable, IsHighest, IsTable};

use crate::tables::{Coarse, free_table};
use action_table::WantMemory;
use craft_settings::Settings;
use craft_state::State;
use priced_bound::{MOST_LEFT, PricedBound};
use quality_sweep::{Ceiling, Outlook, greatest_from, quick_from};
use std::alloc::Global;
use std::thread::Threads;
use worker_gate::Crew;

/// The greatest quality that counts from a state on, None where no list completes the craft from there, and the tables
/// that were filled to find it.
#[derive(Drop)]
pub(crate) struct Highest {
    pub(crate) quality: Option<u32>,
    pub(crate) filled: Vec<PricedBound>,
}

/// The greatest quality that counts with which a list completes the craft from a state. The table by which steps are free
/// is filled only where a first look doesn't reach all quality that counts.
pub(crate) fn highest_quality<R: Threads + Sync, G, W>(
    crew: &Crew<'_, R, G, W>,
    alloc: Global,
    g: &Settings,
    from: &State,
    coarse: &Coarse,
) -> Result<Highest, WantMemory>
    requires open { IsOpen g.now from.now }
    requires table { IsTable g.now coarse.now.table }
    ensures { IfOk result (IsHighest g.now from.now) }
{
    let quality = all_that_counts(alloc, g, from, coarse)?;
    let mut filled = Vec::new(alloc);
    if quality.is_some() {
        return Ok(Highest { quality, filled });
    }
    let free = free_table(crew, alloc, g, from)?;
    let quality = greatest(alloc, g, from, &free)?;
    filled.push(free)?;
    Ok(Highest { quality, filled })
}

// All quality that counts, where narrow dives find a list that completes the craft with it.
fn all_that_counts(
    alloc: Global,
    g: &Settings,
    from: &State,
    coarse: &Coarse,
) -> Result<Option<u32>, WantMemory>
    requires open { IsOpen g.now from.now }
    requires table { IsTable g.now coarse.now.table }
    ensures { IfOk result (λ r. IfSome r (λ quality. IsGreatestQualityFrom g.now from.now (Some quality))) }
{
    let guide = Guide {
        cap: g.cap(),
        coarse,
    };
    let outlook = Outlook {
        g,
        from,
        ceiling: &guide,
    };
    match quick_from(alloc, &outlook)? {
        Some(quality) if g.cap() <= quality => Ok(Some(quality)),
        _ => Ok(None),
    }
}

// The greatest quality that counts, None where no list completes the craft from the state.
fn greatest(
    alloc: Global,
    g: &Settings,
    from: &State,
    free: &PricedBound,
) -> Result<Option<u32>, WantMemory>
    requires open { IsOpen g.now from.now }
    requires table { IsFreeTable g.now free.now }
    ensures { IfOk result (IsGreatestQualityFrom g.now from.now) }
{
    let ceiling = FreeCeiling { table: free };
    let outlook = Outlook {
        g,
        from,
        ceiling: &ceiling,
    };
    greatest_from(alloc, &outlook)
}

// What a table by which steps are free promises of states with the most steps left. Quality that doesn't count is told
// too, so that of states that may all reach what counts the most promising ones are looked at first.
#[derive(Drop)]
struct FreeCeiling<'a> {
    table: &'a PricedBound,
}

impl Ceiling for FreeCeiling<'_> {
    ghost use Rattle.step_rules.specs.Legality.{IsWithin};
    ghost use Rattle.best_search.specs.Looking.{free_promise};

    ghost allows = { λ c. IsWithin c.table.now.by.g };

    ghost limit_of = { λ c. free_promise c.table.now };

    fn limit(&self, s: &State) -> Option<u32> {
        self.table.promise(s, MOST_LEFT)
    }

    fn rank(&self, _s: &State, limit: u32) -> u32 {
        limit
    }
}

// All quality that counts as the limit of each state. A dive goes by what the coarse table promises of them.
#[derive(Drop)]
struct Guide<'a> {
    cap: u32,
    coarse: &'a Coarse,
}

impl Ceiling for Guide<'_> {
    ghost use Rattle.std.specs.Prelude.{Some};
    ghost use Rattle.step_rules.specs.Legality.{IsWithin};

    ghost allows = { λ c. IsWithin c.coarse.now.table.by.g };

    ghost limit_of = { λ c _. Some c.cap };

    fn limit(&self, _s: &State) -> Option<u32> {
        Some(self.cap)
    }

    fn rank(&self, s: &State, _limit: u32) -> u32 {
        match self.coarse.promise(s) {
            Some(quality) => quality,
            None => 0,
        }
    }
}
