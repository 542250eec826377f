ghost use Rattle.std.specs.Prelude.{◌≡◌, ◌<◌, ◌==◌, [], IfOk, OnOk, if◌then◌else◌};
ghost use Rattle.std.specs.List.{AllZip, range_with_len};
ghost use Rattle.pareto_front.specs.Parts.{AreSorted, Keeps, Tries, joined, runs_of};

use crate::columns::Columns;
use crate::parts::{Entry, join};
use action_table::WantMemory;
use rayon::prelude::*;
use std::alloc::{AllocError, Global};
use std::thread::Threads;

/// The places of what is kept of each of so many parts, from as many threads as there are processors.
pub(crate) fn keep_all(
    rt: &(impl Threads + Sync),
    alloc: Global,
    runs: &[Vec<Vec<Entry>>],
    count: usize,
) -> Result<Result<Vec<Vec<usize>>, WantMemory>, AllocError>
    ensures { IfOk result (λ all. IfOk all (λ kept.
        AllZip (λ g places. Keeps (joined (runs_of runs.now) g) places.items) (range_with_len 0 count) kept.items)) }
{
    (0..count)
        .into_par_iter()
        .with_min_len(1)
        .map(
            |part: usize| -> Result<Vec<usize>, WantMemory>
                ensures { IfOk result (λ places. Keeps (joined (runs_of runs.entry.now) part) places.items) }
            { keep_part(alloc, runs, part) },
        )
        .collect(rt, alloc)
}

// The places of what is kept of a part.
fn keep_part(alloc: Global, runs: &[Vec<Vec<Entry>>], part: usize) -> Result<Vec<usize>, WantMemory>
    ensures { IfOk result (λ places. Keeps (joined (runs_of runs.now) part) places.items) }
{
    let entries = join(alloc, runs, part)?;
    keep(alloc, entries)
}

// The places of the entries of a part that no other outdoes.
fn keep(alloc: Global, part: Vec<Entry>) -> Result<Vec<usize>, WantMemory>
    ensures { IfOk result (λ kept. Keeps part.items kept.items) }
{
    let mut sorted = part;
    sorted.sort_unstable_by_key(|entry| (entry.key, entry.seconds, entry.place));
    keep_sorted(alloc, &sorted)
}

// The same of a sorted part, with the numbers that are kept of the latest key in columns.
fn keep_sorted(alloc: Global, sorted: &[Entry]) -> Result<Vec<usize>, WantMemory>
    requires { AreSorted sorted.now }
    ensures { IfOk result (λ kept. Keeps sorted.now kept.items) }
{
    let mut key = 0;
    let mut columns = Columns::new(alloc);
    let mut kept = Vec::new(alloc);
    for entry in sorted {
        key = turn_to(entry.key, key, &mut columns);
        try_entry(*entry, &mut columns, &mut kept)?;
    }
    Ok(kept)
}

// Empties the columns where another key comes.
fn turn_to(key: u64, last: u64, columns: &mut Columns) -> u64
    ensures key { result ≡ key }
    ensures columns { columns.new ≡ (if key == last then columns.old else []) }
{
    if key != last {
        columns.clear();
    }
    key
}

// Keeps an entry unless the numbers of a kept one are not less.
fn try_entry(entry: Entry, columns: &mut Columns, kept: &mut Vec<usize>) -> Result<(), WantMemory>
    ensures { OnOk result (Tries entry columns.old kept.old.items columns.new kept.new.items) }
{
    let numbers = entry.numbers;
    match columns.cover([numbers.cp, numbers.durability, numbers.quality]) {
        None => {
            columns.push(numbers.cp, numbers.durability, numbers.quality)?;
            kept.push(entry.place)?;
        }
        Some(_) => {}
    }
    Ok(())
}
