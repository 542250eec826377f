ghost use Rattle.std.specs.Prelude.{◌≡◌, ◌≤◌, IfSome};
ghost use Rattle.seat_tables.specs.Seats.{IsOf};
ghost use Rattle.step_rules.specs.Macro.{IsReached};

use crate::{QualityTruth, ask, fill_budget, fill_column, limit};
use action_table::{Action, WantMemory};
use craft_settings::Settings;
use race_core::{Core, Entry, Event};
use relaxed_moves::{Relaxed, of_index, potential, start_potential};
use seat_tables::{Seat, Shared};
use std::alloc::Global;
use std::test::Fail;
use step_rules::{replay, start};
use test_crafts::{FOUR_STEPS, ONE_TOUCH};
use test_parts::{Table, Word, say_drawn};
use worker_gate::FreeGate;

fn first_touch() -> QualityTruth
    ensures grain { result.grain ≡ 16 }
    ensures cp { result.g.cp ≡ 18 }
{
    QualityTruth {
        g: ONE_TOUCH,
        grain: 16,
    }
}

// Index 7 is budget 0, bucket 0, veneration 1, strides and muscle; index 1100 is budget 0, bucket 1.
#[test]
fn a_put_word_stays(rt: HostRuntime) -> Result<(), Fail> {
    let (table, mut a) = Shared::new(rt.alloc(), first_touch())?;
    let mut b = table.split(&mut a);
    assert_eq!(rt; table.load(&mut b, 7), None);
    table.put(&mut a, 7, Entry::Best(0));
    assert_eq!(rt; table.load(&mut b, 7), Some(Entry::Best(0)));
    table.join(&mut a, b);
    assert_eq!(rt; table.load(&mut a, 7), Some(Entry::Best(0)));
    table.put(&mut a, 7, Entry::Best(0));
    assert_eq!(rt; ask(&table, &mut a, 0, &of_index(16, 1100).1), None);
    let closed = table.close(a);
    assert_eq!(rt; closed.word(8), 2);
    assert_eq!(rt; closed.word(1101), 1);
    Ok(())
}

// The seat that put the word was joined away, so the last event changes nothing.
#[test]
fn a_joined_seat_plays_no_more(rt: HostRuntime) -> Result<(), Fail> {
    let mut core = Core::start(rt.alloc(), first_touch())?;
    core.run(&[
        Event::Load { seat: 0, index: 7 },
        Event::Split { seat: 0 },
        Event::Put {
            seat: 1,
            index: 7,
            entry: Entry::Best(0),
        },
        Event::Join { into: 0, from: 1 },
        Event::Load { seat: 1, index: 7 },
    ])?;
    assert_eq!(rt; core.word(8), 2);
    Ok(())
}

// The quality of a macro that completes the craft.
fn reached(g: &Settings, actions: &[Action]) -> Option<u32>
    ensures { IfSome result (λ quality. IsReached g.now quality) }
{
    let Ok(last) = replay(g, &start(g), actions) else {
        return None;
    };
    if last.progress != g.progress {
        return None;
    }
    Some(g.cap().min(last.quality))
}

#[test]
fn the_mark_never_falls(rt: HostRuntime) -> Result<(), Fail> {
    let (table, mut a) = Shared::new(rt.alloc(), first_touch())?;
    let g = table.truth().g;
    let mut b = table.split(&mut a);
    assert_eq!(rt; table.see(&mut a), None);
    let touched = [Action::BasicTouch, Action::BasicSynthesis];
    if let Some(quality) = reached(&g, &touched) {
        table.offer(&mut a, quality);
    }
    assert_eq!(rt; table.see(&mut a), Some(100));
    assert_eq!(rt; table.see(&mut b), Some(100));
    if let Some(quality) = reached(&g, &[Action::BasicSynthesis]) {
        assert_eq!(rt; quality, 0);
        table.offer(&mut a, quality);
    }
    assert_eq!(rt; table.see(&mut a), Some(100));
    Ok(())
}

// The column of a budget with no effects, where the table has this budget.
fn column(table: &Shared<QualityTruth>, seat: &mut Seat<QualityTruth>, beta: u32) -> [u32; 17]
    requires of { IsOf table.now seat.old }
    requires grain { table.now.truth.grain ≡ 16 }
    ensures of { IsOf table.now seat.new }
{
    let mut row = [9u32; 17];
    if beta <= start_potential(&table.truth().g) {
        fill_column(table, seat, beta, 0, &mut row);
    }
    row
}

#[test]
fn fills_two_columns(rt: HostRuntime) -> Result<(), Fail> {
    let (table, mut seat) = Shared::new(rt.alloc(), first_touch())?;
    let empty = column(&table, &mut seat, 0);
    assert!(rt; empty == [1, 0, 0, 0, 0, 0, 0, 0, 0, 0, 0, 0, 0, 0, 0, 0, 0]);
    let one_synthesis = column(&table, &mut seat, 28);
    assert!(rt; one_synthesis == [1, 1, 1, 1, 1, 1, 1, 1, 1, 1, 1, 1, 1, 1, 1, 1, 0]);
    Ok(())
}

// Budget 0, veneration 1, strides and muscle; and budget 0, bucket 1. Both words are there at the end.
#[test]
fn asked_words_are_there(rt: HostRuntime) -> Result<(), Fail> {
    let (table, mut first) = Shared::new(rt.alloc(), first_touch())?;
    let mut second = table.split(&mut first);
    assert_eq!(rt; ask(&table, &mut second, 0, &of_index(16, 7).1), Some(0));
    let mut third = table.split(&mut second);
    assert_eq!(rt; table.load(&mut third, 7), Some(Entry::Best(0)));
    table.join(&mut first, second);
    assert_eq!(rt; ask(&table, &mut first, 0, &of_index(16, 1100).1), None);
    let closed = table.close(first);
    assert_eq!(rt; closed.word(8), 2);
    assert_eq!(rt; closed.word(1101), 1);
    Ok(())
}

// The limit of a prefix, where it is legal.
fn limit_after(
    table: &Shared<QualityTruth>,
    seat: &mut Seat<QualityTruth>,
    actions: &[Action],
) -> Option<u32>
    requires { IsOf table.now seat.old }
    ensures { IsOf table.now seat.new }
{
    let g = table.truth().g;
    let Ok(s) = replay(&g, &start(&g), actions) else {
        return None;
    };
    if potential(&g, &s) > start_potential(&g) {
        return None;
    }
    limit(table, seat, &s)
}

#[test]
fn limits_fall_along_a_macro(rt: HostRuntime) -> Result<(), Fail> {
    let truth = QualityTruth {
        g: FOUR_STEPS,
        grain: 16,
    };
    let (table, mut seat) = Shared::new(rt.alloc(), truth)?;
    let actions = [Action::Veneration, Action::Innovation, Action::BasicTouch];
    assert_eq!(rt; limit_after(&table, &mut seat, &actions[..1]), Some(250));
    assert_eq!(rt; limit_after(&table, &mut seat, &actions[..2]), Some(187));
    assert_eq!(rt; limit_after(&table, &mut seat, &actions), Some(150));
    Ok(())
}

#[test]
fn two_seats_fill_a_budget(rt: HostRuntime) -> Result<(), Fail> {
    let (table, mut first) = Shared::new(rt.alloc(), first_touch())?;
    let second = table.split(&mut first);
    let mut seats = [first, second];
    fill_budget(&rt, &table, &mut seats, &FreeGate, 0);
    let [mut first, mut second] = seats;
    assert_eq!(rt; table.load(&mut first, 0), Some(Entry::Best(0)));
    assert_eq!(rt; table.load(&mut second, 1000), Some(Entry::Best(0)));
    table.join(&mut first, second);
    let closed = table.close(first);
    assert_eq!(rt; closed.word(550), 2);
    assert_eq!(rt; closed.word(551), 2);
    assert_eq!(rt; closed.word(18700), 1);
    Ok(())
}

// The table of a craft, and a seat at it.
#[derive(Drop)]
struct Seated {
    table: Shared<QualityTruth>,
    seat: Seat<QualityTruth>,
    ghost of: { IsOf table seat },
}

impl Table for Seated {
    fn make(alloc: Global, g: &Settings, grain: u32) -> Result<Seated, WantMemory> {
        let (table, seat) = Shared::new(alloc, QualityTruth::new(g, grain))?;
        Ok(Seated { table, seat })
    }

    fn look(&mut self, first: u32, x: &Relaxed) -> Option<Option<u32>> {
        let truth = self.table.truth();
        if first > start_potential(&truth.g) || x.bucket > truth.grain {
            return None;
        }
        Some(ask(&self.table, &mut self.seat, first, x))
    }
}

// Words of the tables of drawn crafts.
const DRAWN: [[Word; 8]; 6] = [
    [
        (130, 247, 2, Some(1420)),
        (109, 639, 7, Some(1148)),
        (26, 450, 6, None),
        (182, 1009, 1, Some(1722)),
        (197, 76, 7, Some(1419)),
        (23, 117, 4, None),
        (239, 394, 2, Some(2867)),
        (110, 554, 8, Some(1076)),
    ],
    [
        (8, 370, 1, None),
        (14, 1080, 0, Some(0)),
        (79, 604, 0, Some(250)),
        (12, 371, 0, Some(0)),
        (55, 305, 1, Some(0)),
        (46, 953, 0, Some(445)),
        (6, 811, 1, None),
        (89, 318, 0, Some(406)),
    ],
    [
        (108, 322, 4, Some(276)),
        (159, 733, 3, Some(522)),
        (51, 152, 12, None),
        (67, 762, 3, Some(0)),
        (54, 767, 12, Some(0)),
        (2, 210, 3, None),
        (81, 868, 2, Some(229)),
        (107, 678, 9, Some(340)),
    ],
    [
        (114, 532, 4, Some(302)),
        (49, 439, 5, Some(0)),
        (56, 1014, 0, Some(528)),
        (85, 643, 3, Some(387)),
        (81, 119, 1, Some(145)),
        (34, 231, 5, Some(0)),
        (78, 710, 2, Some(359)),
        (122, 87, 5, Some(273)),
    ],
    [
        (12, 927, 6, None),
        (148, 446, 9, Some(812)),
        (272, 1070, 5, Some(2552)),
        (1, 977, 2, None),
        (146, 937, 2, Some(661)),
        (185, 98, 4, Some(580)),
        (147, 775, 6, Some(986)),
        (99, 555, 8, Some(0)),
    ],
    [
        (126, 527, 0, Some(2132)),
        (140, 23, 7, Some(1451)),
        (86, 822, 8, Some(1361)),
        (226, 44, 1, Some(2257)),
        (178, 253, 8, Some(2009)),
        (127, 680, 2, Some(2313)),
        (168, 917, 4, Some(2389)),
        (191, 283, 6, Some(2817)),
    ],
];

#[test]
fn drawn_words(rt: HostRuntime) -> Result<(), Fail> {
    assert!(rt; say_drawn::<Seated>(rt.alloc(), &DRAWN)?);
    Ok(())
}
