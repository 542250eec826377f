ghost use Rattle.std.specs.Prelude.{◌≡◌, All, IfOk, length};
ghost use Rattle.seat_tables.specs.Seats.{IsOf};

use super::*;
use action_table::Action::*;
use std::test::Fail;
use step_rules::Illegal;
use test_crafts::{EASY, FOUR_STEPS, ONE_TOUCH, ORDINARY};
use worker_gate::FreeGate;

// A craft, actions that are done, and the best list after them, if some list completes the craft.
type Row<'a> = (Settings, &'a [Action], Option<&'a [Action]>);

// Whether two lists are the same, or both are none.
fn same(found: &Option<Vec<Action>>, wanted: Option<&[Action]>) -> bool {
    match (found, wanted) {
        (Some(found), Some(wanted)) => found.as_slice() == wanted,
        (None, None) => true,
        _ => false,
    }
}

// Two seats at a table.
fn two_seats(
    alloc: Global,
    table: &Shared<QualityTruth>,
    first: Seat<QualityTruth>,
) -> Result<Vec<Seat<QualityTruth>>, WantMemory>
    requires { IsOf table.now first }
    ensures as_many { IfOk result (λ seats. length seats.items ≡ 2) }
    ensures of { IfOk result (λ seats. All (IsOf table.now) seats.items) }
{
    let mut first = first;
    let mut seats = Vec::new(alloc);
    let second = table.split(&mut first);
    seats.push(first)?;
    seats.push(second)?;
    Ok(seats)
}

// Whether the best list of a row is found, by both calls.
fn finds(rt: &(impl Threads + Sync), alloc: Global, row: &Row<'_>) -> Result<bool, WantMemory> {
    let (g, done, wanted) = row;
    let Ok(craft) = Underway::after(g, done) else {
        return Ok(false);
    };
    let mut crew = Crew::new(rt, &FreeGate, seekers(alloc, 4)?);
    let rest = best_rest(&mut crew, alloc, &craft)?;
    let (table, first) = Shared::new(alloc, QualityTruth::new(g, 2))?;
    let seats = two_seats(alloc, &table, first)?;
    let again = best_after(rt, alloc, g, 2, done, &table, seats, &FreeGate)?;
    Ok(same(&rest, *wanted) && same(&again, *wanted))
}

// The lists in mid craft are each the best of all lists, which were all tried.
#[test]
fn finds_the_rest(rt: HostRuntime) -> Result<(), Fail> {
    let too_far = Settings {
        progress: 250,
        ..FOUR_STEPS
    };
    let rows: [Row<'_>; 8] = [
        (EASY, &[], Some(&[BasicSynthesis])),
        (ONE_TOUCH, &[BasicTouch], Some(&[BasicSynthesis])),
        (
            FOUR_STEPS,
            &[],
            Some(&[Veneration, Innovation, BasicTouch, BasicSynthesis]),
        ),
        (
            FOUR_STEPS,
            &[Veneration],
            Some(&[Innovation, BasicTouch, BasicSynthesis]),
        ),
        (
            FOUR_STEPS,
            &[Veneration, Innovation],
            Some(&[BasicTouch, BasicSynthesis]),
        ),
        (
            FOUR_STEPS,
            &[BasicTouch],
            Some(&[Veneration, BasicSynthesis]),
        ),
        (too_far, &[BasicTouch], None),
        (
            ORDINARY,
            &[BasicSynthesis, Veneration, StandardTouch],
            Some(&[GreatStrides, StandardTouch, BasicSynthesis]),
        ),
    ];
    for row in &rows {
        assert!(rt; finds(&rt, rt.alloc(), row)?);
    }
    Ok(())
}

// Why a craft doesn't go on after some actions.
fn unfit<'a>(g: &'a Settings, done: &'a [Action]) -> Option<Unfit> {
    match Underway::after(g, done) {
        Ok(_) => None,
        Err(unfit) => Some(unfit),
    }
}

#[test]
fn tells_why_it_is_unfit(rt: HostRuntime) {
    assert_eq!(rt; unfit(&ONE_TOUCH, &[BasicSynthesis]), Some(Unfit::Over));
    let late = Unfit::Illegal {
        place: 1,
        why: Illegal::Finished,
    };
    assert_eq!(rt;
        unfit(&ONE_TOUCH, &[BasicSynthesis, BasicTouch]),
        Some(late)
    );
    let unknown = Unfit::Illegal {
        place: 0,
        why: Illegal::NotLearned,
    };
    assert_eq!(rt; unfit(&ONE_TOUCH, &[Observe]), Some(unknown));
}
