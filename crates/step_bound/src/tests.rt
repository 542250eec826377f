ghost use Rattle.std.specs.Prelude.{◌≡◌, ◌≤◌};
ghost use Rattle.seat_tables.specs.Seats.{IsOf};

use crate::{StepTruth, ask, within};
use action_table::{Action, WantMemory};
use craft_settings::Settings;
use relaxed_moves::{MOST_MOVES, Relaxed};
use seat_tables::{Seat, Shared};
use std::alloc::Global;
use std::test::Fail;
use step_rules::{replay, start};
use test_crafts::ONE_TOUCH;
use test_parts::{Table, Word, say_drawn};

fn first_touch() -> StepTruth
    ensures { result.grain ≡ 16 }
{
    StepTruth {
        g: ONE_TOUCH,
        grain: 16,
    }
}

fn bucket(bucket: u32) -> Relaxed
    ensures { result.bucket ≡ bucket }
{
    Relaxed {
        bucket,
        iq: 0,
        innovation: 0,
        veneration: 0,
        strides: false,
        muscle: false,
    }
}

// A bucket is 7 of progress: a synthesis does 14 whole buckets, and leaves one of 16. Each touch gains 100.
#[test]
fn synthesis_before_touches(rt: HostRuntime) -> Result<(), Fail> {
    let (table, mut seat) = Shared::new(rt.alloc(), first_touch())?;
    assert_eq!(rt; ask(&table, &mut seat, 0, &bucket(0)), Some(0));
    assert_eq!(rt; ask(&table, &mut seat, 0, &bucket(1)), None);
    assert_eq!(rt; ask(&table, &mut seat, 1, &bucket(14)), Some(0));
    assert_eq!(rt; ask(&table, &mut seat, 1, &bucket(16)), None);
    assert_eq!(rt; ask(&table, &mut seat, 3, &bucket(16)), Some(100));
    assert_eq!(rt; ask(&table, &mut seat, 63, &bucket(0)), Some(6300));
    Ok(())
}

// The limit after a touch within so many steps.
fn within_after_touch(table: &Shared<StepTruth>, seat: &mut Seat<StepTruth>, j: u32) -> Option<u32>
    requires { IsOf table.now seat.old }
    ensures { IsOf table.now seat.new }
{
    let g = table.truth().g;
    let Ok(s) = replay(&g, &start(&g), &[Action::BasicTouch]) else {
        return None;
    };
    within(table, seat, &s, j)
}

#[test]
fn each_step_counts(rt: HostRuntime) -> Result<(), Fail> {
    let (table, mut seat) = Shared::new(rt.alloc(), first_touch())?;
    assert_eq!(rt; within_after_touch(&table, &mut seat, 0), None);
    assert_eq!(rt; within_after_touch(&table, &mut seat, 1), Some(100));
    assert_eq!(rt; within_after_touch(&table, &mut seat, 2), Some(200));
    assert_eq!(rt; within_after_touch(&table, &mut seat, 63), Some(500));
    assert_eq!(rt; within_after_touch(&table, &mut seat, 64), Some(500));
    Ok(())
}

// The table of a craft, and a seat at it.
#[derive(Drop)]
struct Seated {
    table: Shared<StepTruth>,
    seat: Seat<StepTruth>,
    ghost of: { IsOf table seat },
}

impl Table for Seated {
    fn make(alloc: Global, g: &Settings, grain: u32) -> Result<Seated, WantMemory> {
        let (table, seat) = Shared::new(alloc, StepTruth::new(g, grain))?;
        Ok(Seated { table, seat })
    }

    fn look(&mut self, first: u32, x: &Relaxed) -> Option<Option<u32>> {
        if first > MOST_MOVES || x.bucket > self.table.truth().grain {
            return None;
        }
        Some(ask(&self.table, &mut self.seat, first, x))
    }
}

// Words of the tables of drawn crafts.
const DRAWN: [[Word; 8]; 6] = [
    [
        (29, 1053, 0, Some(17220)),
        (29, 571, 8, Some(16758)),
        (35, 146, 7, Some(18866)),
        (62, 1058, 2, Some(36162)),
        (57, 485, 2, Some(32427)),
        (10, 676, 0, Some(6182)),
        (27, 363, 6, Some(15092)),
        (22, 478, 7, Some(12495)),
    ],
    [
        (63, 861, 0, Some(20054)),
        (43, 667, 0, Some(13908)),
        (25, 96, 1, Some(6988)),
        (52, 772, 0, Some(16552)),
        (10, 1047, 1, Some(3433)),
        (7, 763, 1, Some(2466)),
        (46, 227, 1, Some(13759)),
        (53, 131, 1, Some(15779)),
    ],
    [
        (27, 648, 0, Some(4644)),
        (43, 755, 0, Some(7551)),
        (33, 254, 5, Some(5340)),
        (4, 368, 7, Some(470)),
        (54, 776, 4, Some(9187)),
        (17, 512, 9, Some(2421)),
        (6, 856, 11, Some(811)),
        (51, 197, 9, Some(8327)),
    ],
    [
        (48, 358, 0, Some(10255)),
        (47, 150, 3, Some(9804)),
        (5, 1086, 2, Some(1408)),
        (2, 627, 1, Some(431)),
        (42, 946, 2, Some(9130)),
        (37, 192, 3, Some(7685)),
        (59, 632, 4, Some(12420)),
        (50, 253, 4, Some(10390)),
    ],
    [
        (60, 888, 6, Some(28234)),
        (4, 451, 0, Some(2249)),
        (16, 1000, 4, Some(6960)),
        (11, 612, 4, Some(4500)),
        (34, 140, 5, Some(15008)),
        (16, 893, 5, Some(7818)),
        (47, 341, 2, Some(21296)),
        (18, 236, 8, Some(7561)),
    ],
    [
        (7, 542, 4, Some(4097)),
        (30, 556, 1, Some(17558)),
        (57, 242, 1, Some(33528)),
        (21, 446, 5, Some(12324)),
        (48, 384, 6, Some(28462)),
        (42, 450, 7, Some(25029)),
        (52, 716, 4, Some(30672)),
        (19, 1068, 0, Some(12401)),
    ],
];

#[test]
fn drawn_words(rt: HostRuntime) -> Result<(), Fail> {
    assert!(rt; say_drawn::<Seated>(rt.alloc(), &DRAWN)?);
    Ok(())
}
