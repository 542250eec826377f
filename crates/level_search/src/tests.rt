ghost use Rattle.std.specs.Prelude.{◌≡◌, ◌≤◌, IfOk, All, length};
ghost use Rattle.level_search.specs.Searching.{IsSearcherOf};

use super::*;
use macro_order::score;
use std::test::Fail;
use test_crafts::{EASY, FOUR_STEPS, ONE_TOUCH, ORDINARY, TWO_TOUCHES};
use test_parts::Meeting;
use worker_gate::FreeGate;

// The best macro of the ordinary craft, and the counts of its levels.
const SIX_ACTIONS: [Action; 6] = [
    Action::BasicSynthesis,
    Action::Veneration,
    Action::StandardTouch,
    Action::GreatStrides,
    Action::StandardTouch,
    Action::BasicSynthesis,
];

const SIX_COUNTS: [u64; 6] = [1, 4, 14, 33, 43, 8];

// So many searchers, the first of which is given.
fn searchers(
    alloc: Global,
    quality: &Shared<QualityTruth>,
    steps: &Shared<StepTruth>,
    first: Searcher,
    count: u32,
) -> Result<Vec<Searcher>, WantMemory>
    requires of { IsSearcherOf quality.now steps.now first }
    requires some { 1 ≤ count }
    ensures count { IfOk result (λ all. length all.items ≡ count) }
    ensures of { IfOk result (λ all. All (IsSearcherOf quality.now steps.now) all.items) }
{
    let mut first = first;
    let mut all = Vec::new(alloc);
    for _turn in 1..count {
        all.push(Searcher {
            quality: quality.split(&mut first.quality),
            steps: steps.split(&mut first.steps),
        })?;
    }
    all.push(first)?;
    Ok(all)
}

// A craft, its best macro, which has the greatest quality that counts, and the counts of its levels.
#[derive(Drop)]
struct Case<'a> {
    g: &'a Settings,
    actions: &'a [Action],
    counts: &'a [u64],
}

// Whether so many workers find the macro and the counts of a case.
fn finds<G: Gate>(
    rt: &(impl Threads + Sync),
    alloc: Global,
    gate: &G,
    workers: u32,
    case: &Case<'_>,
) -> Result<bool, WantMemory>
    requires low { 1 ≤ workers }
    requires high { workers ≤ 64 }
{
    let g = case.g;
    let target = g.quality.min(g.target);
    let Some(best) = score(g, case.actions) else {
        return Ok(false);
    };
    if best.quality != target {
        return Ok(false);
    }
    let (quality, quality_seat) = Shared::new(alloc, QualityTruth::new(g, 16))?;
    let (steps, steps_seat) = Shared::new(alloc, StepTruth::new(g, 16))?;
    let first = Searcher {
        quality: quality_seat,
        steps: steps_seat,
    };
    let all = searchers(alloc, &quality, &steps, first, workers)?;
    let (found, back) = best_macro(rt, alloc, g, 16, target, &quality, &steps, all, gate)?;
    Ok(
        back.len() == workers as usize
            && found.actions.as_slice() == case.actions
            && found.counts.as_slice() == case.counts,
    )
}

#[test]
fn finds_the_best_with_its_counts(rt: HostRuntime) -> Result<(), Fail> {
    use Action::*;
    let ground = Settings {
        level: 86,
        progress: 180,
        quality: 0,
        durability: 10,
        ..ONE_TOUCH
    };
    let forbidden = ground.forbidden + 2048 + 4096;
    let rows: [(Settings, &[Action], &[u64]); 10] = [
        (Settings { target: 0, ..EASY }, &[BasicSynthesis], &[1]),
        (
            Settings {
                target: 100,
                ..ONE_TOUCH
            },
            &[BasicTouch, BasicSynthesis],
            &[1, 1],
        ),
        (
            Settings {
                durability: 10,
                target: 0,
                ..ONE_TOUCH
            },
            &[BasicSynthesis],
            &[1],
        ),
        (
            Settings {
                target: 210,
                ..TWO_TOUCHES
            },
            &[BasicTouch, BasicTouch, BasicSynthesis],
            &[1, 1, 1],
        ),
        (
            Settings {
                level: 7,
                cp: 106,
                target: 100,
                ..ONE_TOUCH
            },
            &[BasicTouch, BasicSynthesis],
            &[1, 1],
        ),
        (
            Settings {
                level: 15,
                progress: 150,
                quality: 0,
                ..ONE_TOUCH
            },
            &[Veneration, BasicSynthesis],
            &[1, 2],
        ),
        (
            Settings {
                target: 150,
                ..FOUR_STEPS
            },
            &[Veneration, Innovation, BasicTouch, BasicSynthesis],
            &[1, 4, 9, 3],
        ),
        (
            Settings {
                level: 100,
                progress: 360,
                ..ground
            },
            &[TrainedPerfection, Groundwork],
            &[1, 5],
        ),
        (
            Settings {
                forbidden,
                ..ground
            },
            &[Groundwork],
            &[1],
        ),
        (ground, &[MuscleMemory], &[1]),
    ];
    for (g, actions, counts) in &rows {
        let case = Case {
            g,
            actions: *actions,
            counts: *counts,
        };
        assert!(rt; finds(&rt, rt.alloc(), &FreeGate, 1, &case)?);
    }
    Ok(())
}

#[test]
fn finds_the_same_with_more_workers(rt: HostRuntime) -> Result<(), Fail> {
    let case = Case {
        g: &ORDINARY,
        actions: &SIX_ACTIONS,
        counts: &SIX_COUNTS,
    };
    for workers in [1, 2, 4, 64] {
        assert!(rt; finds(&rt, rt.alloc(), &FreeGate, workers, &case)?);
    }
    Ok(())
}

#[test]
fn runs_two_workers_side_by_side(rt: HostRuntime) -> Result<(), Fail> {
    let gate = Meeting::new();
    let case = Case {
        g: &ORDINARY,
        actions: &SIX_ACTIONS,
        counts: &SIX_COUNTS,
    };
    assert!(rt; finds(&rt, rt.alloc(), &gate, 2, &case)?);
    assert!(rt; gate.have_met());
    Ok(())
}
