ghost use Rattle.std.specs.Prelude.{◌≤◌};

use super::*;
use action_table::Action::*;
use std::test::Fail;
use step_rules::{is_final, replay};
use test_crafts::{
    EASY, FOUR_STEPS, LEVEL_14, LEVEL_73, LEVEL_80, LEVEL_87, LEVEL_96, LEVEL_99, ONE_TOUCH,
    ORDINARY, TWO_TOUCHES,
};
use test_parts::Meeting;
use worker_gate::FreeGate;

// A craft, actions that are done, and the best list after them, if some list completes the craft.
type Row<'a> = (Settings, &'a [Action], Option<&'a [Action]>);

// Whether two lists are the same, or both are none.
fn same(found: &Option<Vec<Action>>, wanted: Option<&[Action]>) -> bool {
    match (found, wanted) {
        (Some(found), Some(wanted)) => found.as_slice() == wanted,
        (None, None) => true,
        _ => false,
    }
}

// Whether the best list of a row is found, from the state after what is done.
fn finds<G: Gate>(
    rt: &(impl Threads + Sync),
    alloc: Global,
    gate: &G,
    workers: u32,
    row: &Row<'_>,
) -> Result<bool, WantMemory>
    requires low { 1 ≤ workers }
    requires high { workers ≤ 64 }
{
    let (g, done, wanted) = row;
    let Ok(from) = replay(g, &start(g), done) else {
        return Ok(false);
    };
    if is_final(g, &from) {
        return Ok(false);
    }
    let mut crew = Crew::new(rt, gate, seekers(alloc, workers)?);
    let found = best_from(&mut crew, alloc, g, &from)?;
    Ok(same(&found, *wanted))
}

// Whether the best macro of a row without done actions is found.
fn finds_whole(
    rt: &(impl Threads + Sync),
    alloc: Global,
    row: &Row<'_>,
) -> Result<bool, WantMemory> {
    let (g, _done, wanted) = row;
    let mut crew = Crew::new(rt, &FreeGate, seekers(alloc, 2)?);
    let found = best_macro(&mut crew, alloc, g)?;
    let again = best_with(rt, alloc, g, 2, &FreeGate)?;
    Ok(same(&found, *wanted) && same(&again, *wanted))
}

#[test]
fn finds_the_best_macros(rt: HostRuntime) -> Result<(), Fail> {
    let too_far = Settings {
        progress: 101,
        ..EASY
    };
    let rows: [Row<'_>; 12] = [
        (EASY, &[], Some(&[BasicSynthesis])),
        (too_far, &[], None),
        (ONE_TOUCH, &[], Some(&[BasicTouch, BasicSynthesis])),
        (
            TWO_TOUCHES,
            &[],
            Some(&[BasicTouch, BasicTouch, BasicSynthesis]),
        ),
        (
            FOUR_STEPS,
            &[],
            Some(&[Veneration, Innovation, BasicTouch, BasicSynthesis]),
        ),
        (
            ORDINARY,
            &[],
            Some(&[
                BasicSynthesis,
                Veneration,
                StandardTouch,
                GreatStrides,
                StandardTouch,
                BasicSynthesis,
            ]),
        ),
        (
            LEVEL_14,
            &[],
            Some(&[BasicTouch, BasicTouch, BasicSynthesis]),
        ),
        (
            LEVEL_73,
            &[],
            Some(&[Veneration, BasicSynthesis, BasicSynthesis]),
        ),
        (LEVEL_80, &[], Some(&[PreparatoryTouch, BasicSynthesis])),
        (LEVEL_87, &[], Some(&[StandardTouch, BasicSynthesis])),
        (LEVEL_96, &[], Some(&[BasicTouch, BasicSynthesis])),
        (
            LEVEL_99,
            &[],
            Some(&[
                PrudentTouch,
                PrudentTouch,
                PrudentTouch,
                StandardTouch,
                BasicSynthesis,
                BasicSynthesis,
            ]),
        ),
    ];
    for row in &rows {
        assert!(rt; finds_whole(&rt, rt.alloc(), row)?);
    }
    Ok(())
}

// Each of these is the best of all lists after what is done, which were all tried.
#[test]
fn finds_the_best_lists_in_mid_craft(rt: HostRuntime) -> Result<(), Fail> {
    let too_far = Settings {
        progress: 250,
        ..FOUR_STEPS
    };
    let rows: [Row<'_>; 8] = [
        (
            FOUR_STEPS,
            &[Veneration],
            Some(&[Innovation, BasicTouch, BasicSynthesis]),
        ),
        (
            FOUR_STEPS,
            &[BasicTouch],
            Some(&[Veneration, BasicSynthesis]),
        ),
        (
            FOUR_STEPS,
            &[Innovation],
            Some(&[BasicTouch, Veneration, BasicSynthesis]),
        ),
        (too_far, &[BasicTouch], None),
        (
            ORDINARY,
            &[BasicTouch, StandardTouch],
            Some(&[
                BasicSynthesis,
                WasteNot,
                Veneration,
                ByregotsBlessing,
                BasicSynthesis,
            ]),
        ),
        (
            ORDINARY,
            &[GreatStrides, BasicTouch],
            Some(&[
                BasicSynthesis,
                Veneration,
                GreatStrides,
                BasicTouch,
                BasicSynthesis,
            ]),
        ),
        (
            ORDINARY,
            &[BasicSynthesis, Veneration, StandardTouch],
            Some(&[GreatStrides, StandardTouch, BasicSynthesis]),
        ),
        (
            LEVEL_99,
            &[StandardTouch],
            Some(&[
                PrudentTouch,
                PrudentTouch,
                PrudentTouch,
                BasicSynthesis,
                BasicSynthesis,
            ]),
        ),
    ];
    for row in &rows {
        assert!(rt; finds(&rt, rt.alloc(), &FreeGate, 2, row)?);
    }
    Ok(())
}

#[test]
fn finds_the_same_with_more_workers(rt: HostRuntime) -> Result<(), Fail> {
    let row: Row<'_> = (
        ORDINARY,
        &[BasicTouch],
        Some(&[
            BasicSynthesis,
            Veneration,
            GreatStrides,
            Innovation,
            StandardTouch,
            BasicSynthesis,
        ]),
    );
    for workers in [1, 2, 4, 64] {
        assert!(rt; finds(&rt, rt.alloc(), &FreeGate, workers, &row)?);
    }
    Ok(())
}

#[test]
fn runs_two_workers_side_by_side(rt: HostRuntime) -> Result<(), Fail> {
    let gate = Meeting::new();
    let row: Row<'_> = (
        TWO_TOUCHES,
        &[BasicTouch],
        Some(&[BasicTouch, BasicSynthesis]),
    );
    assert!(rt; finds(&rt, rt.alloc(), &gate, 2, &row)?);
    assert!(rt; gate.have_met());
    Ok(())
}
