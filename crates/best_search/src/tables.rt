// The tables that a search fills.
ghost use Rattle.std.specs.Prelude.{◌≡◌, ◌∷◌, [], ◌≤◌, IfOk, All};
ghost use Rattle.priced_bound.specs.Reckoned.{AreReckoned};
ghost use Rattle.best_search.specs.Looking.{IsFreeTable, IsTable};
ghost use Rattle.best_search.specs.declared.tables.TheConstants.{COARSE_STEPS};

use action_table::WantMemory;
use craft_settings::Settings;
use craft_state::State;
use priced_bound::{MOST_LEFT, MOST_NEED, PricedBound, Pricing, Reckoning};
use std::alloc::Global;
use std::slice;
use std::thread::Threads;
use worker_gate::Crew;

/// For how many steps the coarse table is filled first where the craft is small: few crafts of the kind take more.
pub(crate) const FEW_STEPS: u32 = 12;

/// For how many steps the coarse table is filled at most.
pub(crate) const COARSE_STEPS: u32 = 40;

// How many words the coarse table of a small craft takes at most for few steps.
const FEW_WORDS: u64 = 6_000_000;

// A table of fewer words is filled sooner by one thread than by several.
const WORDS_OF_ONE: u64 = 500_000;

// How many units of progress the tables of a small craft, and each coarse table, take at most.
const COARSE_NEED: u32 = 81;

/// A table that is filled soon and tells less.
#[derive(Drop)]
pub(crate) struct Coarse {
    pub(crate) table: PricedBound,
    pub(crate) steps: u32,
    ghost few: { steps ≤ COARSE_STEPS },
}

impl Coarse {
    ghost use Rattle.step_rules.specs.Legality.{IsWithin};

    /// The coarse table of a craft from a state: for few steps where the craft is small.
    pub(crate) fn of_craft<R: Threads + Sync, G, W>(
        crew: &Crew<'_, R, G, W>,
        alloc: Global,
        g: &Settings,
        from: &State,
    ) -> Result<Coarse, WantMemory>
        ensures { IfOk result (λ c. IsTable g.now c.table) }
    {
        if !is_small(g, from) {
            return Coarse::of_more_steps(crew, alloc, g, from);
        }
        let by = Coarse::reckoning(g);
        let table = table_of(crew, alloc, &by, from, FEW_STEPS)?;
        Ok(Coarse {
            table,
            steps: FEW_STEPS,
        })
    }

    /// The coarse table for the most steps.
    pub(crate) fn of_more_steps<R: Threads + Sync, G, W>(
        crew: &Crew<'_, R, G, W>,
        alloc: Global,
        g: &Settings,
        from: &State,
    ) -> Result<Coarse, WantMemory>
        ensures table { IfOk result (λ c. IsTable g.now c.table) }
        ensures steps { IfOk result (λ c. c.steps ≡ COARSE_STEPS) }
    {
        let by = Coarse::reckoning(g);
        let table = table_of(crew, alloc, &by, from, COARSE_STEPS)?;
        Ok(Coarse {
            table,
            steps: COARSE_STEPS,
        })
    }

    /// Whether the table is that of a small craft, for few steps.
    pub(crate) fn is_small(&self) -> bool {
        self.steps < COARSE_STEPS
    }

    /// The table, as the only one of a list.
    pub(crate) fn tables(&self) -> &[PricedBound]
        ensures { result.now ≡ self.now.table ∷ [] }
    {
        slice::from_ref(&self.table)
    }

    /// What the table promises of a state with the most steps left that it was filled for.
    pub(crate) fn promise(&self, s: &State) -> Option<u32>
        requires { IsWithin self.now.table.by.g s.now }
    {
        self.table.promise(s, self.steps)
    }

    // The prices and units of coarse tables.
    fn reckoning(g: &Settings) -> Reckoning
        ensures g { result.g ≡ g.now }
        ensures reckoned { AreReckoned result }
    {
        Reckoning::new(g, Pricing::CoarseSteps, COARSE_NEED)
    }
}

// Whether a craft is small from a state: its coarse table for few steps takes few words.
fn is_small(g: &Settings, from: &State) -> bool {
    let by = Coarse::reckoning(g);
    by.words(by.worth(from, FEW_STEPS)) <= FEW_WORDS
}

/// The table by which steps are free, in coarser units where the craft is small.
pub(crate) fn free_table<R: Threads + Sync, G, W>(
    crew: &Crew<'_, R, G, W>,
    alloc: Global,
    g: &Settings,
    from: &State,
) -> Result<PricedBound, WantMemory>
    ensures { IfOk result (IsFreeTable g.now) }
{
    let most_need = if is_small(g, from) {
        COARSE_NEED
    } else {
        MOST_NEED
    };
    let by = Reckoning::new(g, Pricing::FreeSteps, most_need);
    table_of(crew, alloc, &by, from, MOST_LEFT)
}

/// The table by which steps are free, for a search of a quality that isn't all that counts. Of that it tells little beside
/// the others, and a small craft is searched sooner than the table is filled: there is none.
pub(crate) fn tables_below<R: Threads + Sync, G, W>(
    crew: &Crew<'_, R, G, W>,
    alloc: Global,
    g: &Settings,
    from: &State,
    target: u32,
) -> Result<Vec<PricedBound>, WantMemory>
    ensures { IfOk result (λ v. All (IsTable g.now) v.items) }
{
    let mut filled = Vec::new(alloc);
    if g.cap() <= target || is_small(g, from) {
        return Ok(filled);
    }
    filled.push(free_table(crew, alloc, g, from)?)?;
    Ok(filled)
}

/// The tables that tell most, for the states that at most so many steps lead to. That which lets fewer states through is
/// the first.
pub(crate) fn fine_tables<R: Threads + Sync, G, W>(
    crew: &Crew<'_, R, G, W>,
    alloc: Global,
    g: &Settings,
    from: &State,
    steps: u32,
) -> Result<Vec<PricedBound>, WantMemory>
    requires { steps ≤ MOST_LEFT }
    ensures { IfOk result (λ v. All (IsTable g.now) v.items) }
{
    let mut tables = Vec::new(alloc);
    for pricing in [Pricing::Steps, Pricing::Durability] {
        let by = Reckoning::new(g, pricing, MOST_NEED);
        tables.push(table_of(crew, alloc, &by, from, steps)?)?;
    }
    Ok(tables)
}

// The table of a reckoning for each state that at most so many steps lead to from a state.
fn table_of<R: Threads + Sync, G, W>(
    crew: &Crew<'_, R, G, W>,
    alloc: Global,
    by: &Reckoning,
    from: &State,
    steps: u32,
) -> Result<PricedBound, WantMemory>
    requires steps { steps ≤ MOST_LEFT }
    requires reckoned { AreReckoned by.now }
    ensures by { IfOk result (λ b. b.by ≡ by.now) }
    ensures table { IfOk result (IsTable by.now.g) }
{
    let top = by.worth(from, steps);
    let workers = if by.words(top) <= WORDS_OF_ONE {
        0
    } else {
        crew.len() as usize
    };
    PricedBound::new(crew.rt(), alloc, by, top, workers)
}
