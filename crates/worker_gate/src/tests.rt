ghost use Rattle.std.specs.Prelude.{◌≡◌, ℕ, ◌+◌, ◌-◌, ◌<◌, ◌≤◌, length, slice_index, slice_index_or, All};
ghost use Rattle.worker_gate.specs.Cut.{cut};

use crate::{Crew, FreeGate, each, range_of};
use std::test::Fail;
use std::thread::Threads;

#[test]
fn cuts_ten(rt: HostRuntime) {
    for (k, range) in [(0, (0, 2)), (1, (2, 5)), (2, (5, 7)), (3, (7, 10))] {
        assert_eq!(rt; range_of(10, 4, k), range);
    }
}

// Each rank is its own place.
fn rank(rt: &(impl Threads + Sync), ranks: &mut [u32])
    requires low { 1 ≤ length ranks.old }
    requires high { length ranks.old ≤ 64 }
    ensures { (i : ℕ) → i < length ranks.old → slice_index ranks.new i ≡ i }
{
    each(rt, ranks, &FreeGate, |k, rank: &mut u32| *rank = k);
}

#[test]
fn works_once_at_each_place(rt: HostRuntime) {
    let mut ranks = [9u32; 5];
    rank(&rt, &mut ranks);
    assert!(rt; ranks == [0, 1, 2, 3, 4]);
}

// How long a worker's own range is, beside what it keeps.
#[derive(Drop)]
struct Reader {
    table: u32,
    seen: usize,
}

fn read_range(reader: &mut Reader, from: usize, to: usize)
    requires table { reader.old.table ≡ 7 }
    requires order { from ≤ to }
    ensures stays { reader.new.table ≡ 7 }
    ensures seen { reader.new.seen ≡ to - from }
{
    reader.seen = to - from;
}

// A work that asks something of its worker, and keeps it.
fn read_all(rt: &(impl Threads + Sync), readers: &mut [Reader], len: usize)
    requires low { 1 ≤ length readers.old }
    requires high { length readers.old ≤ 64 }
    requires tables { All (λ s. s.table ≡ 7) readers.old }
    ensures stays { All (λ s. s.table ≡ 7) readers.new }
    ensures seen { (i : ℕ) (d : _) → i < length readers.old →
        (slice_index_or readers.new i d).seen ≡ cut len (length readers.old) (i + 1) - cut len (length readers.old) i }
{
    let workers = readers.len() as u32;
    each(rt, readers, &FreeGate, |k, reader: &mut Reader| {
        let (from, to) = range_of(len, workers, k);
        read_range(reader, from, to);
    });
}

#[test]
fn reads_each_range(rt: HostRuntime) {
    let mut readers = [Reader { table: 7, seen: 0 }, Reader { table: 7, seen: 0 }];
    read_all(&rt, &mut readers, 11);
    assert!(rt; readers[0].seen == 5 && readers[1].seen == 6);
}

// The same by a crew.
fn read_crew<R: Threads + Sync>(crew: &mut Crew<'_, R, FreeGate, Reader>, len: usize)
    requires tables { All (λ s. s.table ≡ 7) crew.old.workers }
    ensures as_many { length crew.new.workers ≡ length crew.old.workers }
    ensures seen { (i : ℕ) (d : _) → i < length crew.old.workers →
        (slice_index_or crew.new.workers i d).seen ≡ cut len (length crew.old.workers) (i + 1) - cut len (length crew.old.workers) i }
{
    let count = crew.len();
    crew.each(|k, reader: &mut Reader| {
        let (from, to) = range_of(len, count, k);
        read_range(reader, from, to);
    });
}

#[test]
fn a_crew_reads_each_range(rt: HostRuntime) -> Result<(), Fail> {
    let readers = [Reader { table: 7, seen: 0 }, Reader { table: 7, seen: 0 }];
    let mut crew = Crew::new(&rt, &FreeGate, Vec::from_array(rt.alloc(), readers)?);
    read_crew(&mut crew, 11);
    assert_eq!(rt; crew.len(), 2);
    assert_eq!(rt; crew.workers()[0].seen, 5);
    assert_eq!(rt; range_of(12, crew.len(), 1), (6, 12));
    let readers = crew.into_workers();
    assert!(rt; readers[0].seen == 5 && readers[1].seen == 6);
    Ok(())
}
