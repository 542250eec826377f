ghost use Rattle.std.specs.Prelude.{◌≡◌, ◌≤◌, ◌<◌, ◌%◌, All, IfOk, length};
ghost use Rattle.seat_tables.specs.Seats.{IsOf};
ghost use Rattle.relaxed_moves.specs.Places.{quality_size_of};
ghost use Rattle.craft_settings.specs.Ranges.{IsFromTo};

use crate::best_quality;
use action_table::{Action, WantMemory};
use craft_settings::Settings;
use quality_bound::QualityTruth;
use race_core::Entry;
use seat_tables::{Seat, Shared};
use std::alloc::Global;
use std::sync::Wait;
use std::sync::atomic::{AtomicU64, Ordering};
use std::test::Fail;
use std::thread;
use std::thread::Threads;
use test_crafts::{ORDINARY, craft};
use test_parts::{Flags, Meeting, TURNS, is_set_in_time};
use worker_gate::{FreeGate, Gate};

const GRAIN: u32 = 16;

// A table of the craft, and so many seats of it.
fn seated(
    alloc: Global,
    g: Settings,
    count: u32,
) -> Result<(Shared<QualityTruth>, Vec<Seat<QualityTruth>>), WantMemory>
    requires count { IsFromTo 1 64 count }
    ensures settings { IfOk result (λ made. made.0.truth.g ≡ g) }
    ensures grain { IfOk result (λ made. made.0.truth.grain ≡ 16) }
    ensures of { IfOk result (λ made. All (IsOf made.0) made.1.items) }
    ensures count { IfOk result (λ made. length made.1.items ≡ count) }
{
    let (table, first) = Shared::new(alloc, QualityTruth { g, grain: GRAIN })?;
    let seats = split_off(alloc, &table, first, count)?;
    Ok((table, seats))
}

// So many seats, split off from one, which is the last of them.
fn split_off(
    alloc: Global,
    table: &Shared<QualityTruth>,
    first: Seat<QualityTruth>,
    count: u32,
) -> Result<Vec<Seat<QualityTruth>>, WantMemory>
    requires of { IsOf table.now first }
    requires count { IsFromTo 1 64 count }
    ensures of { IfOk result (λ seats. All (IsOf table.now) seats.items) }
    ensures count { IfOk result (λ seats. length seats.items ≡ count) }
{
    let mut first = first;
    let mut seats = Vec::new(alloc);
    for _seat in 1..count {
        let next = table.split(&mut first);
        seats.push(next)?;
    }
    seats.push(first)?;
    Ok(seats)
}

// What so many workers answer.
fn answer<G: Gate>(
    rt: &(impl Threads + Sync),
    alloc: Global,
    g: &Settings,
    count: u32,
    gate: &G,
) -> Result<Option<u32>, WantMemory>
    requires count { IsFromTo 1 64 count }
{
    let (table, seats) = seated(alloc, *g, count)?;
    let (quality, _) = best_quality(rt, alloc, g, GRAIN, &table, seats, gate)?;
    Ok(quality)
}

#[test]
fn small_crafts(rt: HostRuntime) -> Result<(), Fail> {
    let half = (1 << Action::MuscleMemory.number()) | (1 << Action::CarefulSynthesis.number());
    let table = [
        (craft(1, 0, 10, 100, 100), Some(0)),
        (craft(1, 0, 10, 101, 100), None),
        (craft(5, 18, 20, 100, 500), Some(100)),
        (craft(5, 18, 10, 100, 500), Some(0)),
        (craft(11, 36, 30, 100, 500), Some(210)),
        (craft(10, 36, 30, 100, 500), Some(200)),
        (craft(7, 106, 20, 100, 500), Some(100)),
        (craft(15, 18, 20, 150, 0), Some(0)),
        (craft(26, 54, 20, 150, 500), Some(150)),
        (craft(100, 18, 10, 360, 0), Some(0)),
        (
            Settings {
                forbidden: half,
                ..craft(86, 18, 10, 180, 0)
            },
            Some(0),
        ),
        (
            Settings {
                forbidden: half,
                ..craft(86, 18, 10, 181, 0)
            },
            None,
        ),
        (craft(86, 18, 10, 180, 0), Some(0)),
        (ORDINARY, Some(400)),
    ];
    for (g, expected) in &table {
        assert_eq!(rt; answer(&rt, rt.alloc(), g, 2, &FreeGate)?, *expected);
    }
    Ok(())
}

// The craft with other base values, and few actions: those whose bits are not set.
fn few(g: Settings, base_progress: u32, base_quality: u32, forbidden: u32) -> Settings
    requires base_progress { IsFromTo 1 5000 base_progress }
    requires base_quality { IsFromTo 1 5000 base_quality }
{
    Settings {
        base_progress,
        base_quality,
        forbidden,
        ..g
    }
}

#[test]
fn any_number_of_workers_answers_the_same(rt: HostRuntime) -> Result<(), Fail> {
    let table = [
        (
            few(craft(90, 97, 35, 182, 531), 69, 152, 54517440),
            Some(478),
        ),
        (
            few(craft(100, 93, 30, 226, 1398), 105, 113, 46095064),
            Some(623),
        ),
        (
            few(craft(50, 124, 40, 252, 808), 104, 139, 49016552),
            Some(457),
        ),
        (
            few(craft(100, 95, 30, 410, 1392), 101, 104, 62692908),
            Some(260),
        ),
        (
            few(craft(70, 160, 40, 252, 1279), 62, 95, 26192856),
            Some(569),
        ),
        (few(craft(20, 88, 15, 435, 572), 77, 93, 41549188), None),
    ];
    for (g, expected) in &table {
        for count in [1, 2, 4] {
            assert_eq!(rt; answer(&rt, rt.alloc(), g, count, &FreeGate)?, *expected);
        }
    }
    Ok(())
}

#[test]
fn the_workers_run_side_by_side(rt: HostRuntime) -> Result<(), Fail> {
    let gate = Meeting::new();
    assert_eq!(rt; answer(&rt, rt.alloc(), &ORDINARY, 2, &gate)?, Some(400));
    assert!(rt; gate.have_met());
    assert_eq!(rt;
        answer(&rt, rt.alloc(), &ORDINARY, 1, &FreeGate)?,
        Some(400)
    );
    Ok(())
}

// A gate that shows who fills which part of the table. At its first pass the filler waits until a watcher has found
// the index, which is one of its part, empty, and the other worker waits until the watcher has found it filled.
#[derive(Drop)]
struct Filling {
    filler: u32,
    index: usize,
    passed: Flags,
    empty: AtomicU64,
    full: AtomicU64,
    late: AtomicU64,
}

impl Filling {
    fn wait(&self, flag: &AtomicU64) {
        if !is_set_in_time(flag) {
            self.late.store(1, Ordering::SeqCst);
        }
    }
}

impl Gate for Filling {
    fn pass(&self, worker: u32) {
        if self.passed.of(worker).swap(1, Ordering::SeqCst) == 1 {
            return;
        }
        if worker == self.filler {
            self.wait(&self.empty);
        } else {
            self.wait(&self.full);
        }
    }
}

// Looks at the index once both workers have called, and then until it is filled.
fn watch(gate: &Filling, table: &Shared<QualityTruth>, mut seat: Seat<QualityTruth>)
    requires of { IsOf table.now seat }
    requires inside { gate.now.index < quality_size_of table.now.truth.g table.now.truth.grain }
{
    gate.wait(gate.passed.of(0));
    gate.wait(gate.passed.of(1));
    if table.load(&mut seat, gate.index).is_some() {
        gate.late.store(1, Ordering::SeqCst);
    }
    gate.empty.store(1, Ordering::SeqCst);
    for _turn in 0..TURNS {
        if table.load(&mut seat, gate.index) == Some(Entry::Best(0)) {
            gate.full.store(1, Ordering::SeqCst);
            return;
        }
    }
}

// What two workers answer while a third seat watches the index.
fn watched<R: Threads + Wait + Sync>(
    rt: &R,
    alloc: Global,
    gate: &Filling,
) -> Result<Option<u32>, WantMemory>
    requires index { gate.now.index < 1100 }
{
    let (table, first) = Shared::new(
        alloc,
        QualityTruth {
            g: ORDINARY,
            grain: GRAIN,
        },
    )?;
    watched_at(rt, alloc, gate, &table, first)
}

fn watched_at<R: Threads + Wait + Sync>(
    rt: &R,
    alloc: Global,
    gate: &Filling,
    table: &Shared<QualityTruth>,
    mut first: Seat<QualityTruth>,
) -> Result<Option<u32>, WantMemory>
    requires of { IsOf table.now first }
    requires inside { gate.now.index < quality_size_of table.now.truth.g table.now.truth.grain }
{
    let watcher = table.split(&mut first);
    let seats = split_off(alloc, table, first, 2)?;
    thread::scope(
        thread::scope_env(),
        rt,
        move |scope| -> Result<Option<u32>, WantMemory>
            requires { IsOf table.now watcher × All (IsOf table.now) seats.items × (length seats.items ≡ 2)
                × (gate.now.index < quality_size_of table.now.truth.g table.now.truth.grain) }
        {
            let watching = scope.spawn(
                move ||
                    requires { IsOf table.now watcher × (gate.now.index < quality_size_of table.now.truth.g table.now.truth.grain) }
                { watch(gate, table, watcher) },
            );
            if let Err(refused) = watching {
                (refused.value)();
            }
            pass(rt, alloc, table, seats, gate)
        },
    )
}

// What the pass answers by these seats.
fn pass<G: Gate>(
    rt: &(impl Threads + Sync),
    alloc: Global,
    table: &Shared<QualityTruth>,
    seats: Vec<Seat<QualityTruth>>,
    gate: &G,
) -> Result<Option<u32>, WantMemory>
    requires of { All (IsOf table.now) seats.items }
    requires count { length seats.items ≡ 2 }
{
    let truth = table.truth();
    let (quality, _) = best_quality(rt, alloc, &truth.g, truth.grain, table, seats, gate)?;
    Ok(quality)
}

#[test]
fn each_worker_fills_its_part(rt: HostRuntime) -> Result<(), Fail> {
    for (filler, index) in [(1, 1000), (0, 0)] {
        let gate = Filling {
            filler,
            index,
            passed: Flags::new(),
            empty: AtomicU64::new(0),
            full: AtomicU64::new(0),
            late: AtomicU64::new(0),
        };
        assert_eq!(rt; watched(&rt, rt.alloc(), &gate)?, Some(400));
        assert_eq!(rt; gate.full.load(Ordering::SeqCst), 1);
        assert_eq!(rt; gate.late.load(Ordering::SeqCst), 0);
    }
    Ok(())
}
