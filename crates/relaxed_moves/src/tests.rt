ghost use Rattle.std.specs.Prelude.{◌≡◌, ◌≤◌, ◌%◌};

use super::*;
use action_table::Action;
use craft_settings::Settings;
use craft_state::{Combo, Effects, Perfection, State};
use std::test::Fail;
use test_crafts::{FOUR_STEPS, LARGE, ORDINARY};

const NONE: Relaxed = Relaxed {
    bucket: 0,
    iq: 0,
    innovation: 0,
    veneration: 0,
    strides: false,
    muscle: false,
};

const PLAIN: Effects = Effects {
    iq: 0,
    waste: 0,
    innovation: 0,
    veneration: 0,
    strides: 0,
    muscle: 0,
    manipulation: 0,
    combo: Combo::NoCombo,
    perfection: Perfection::Spent,
    first: false,
};

fn state(cp: u32, durability: u32, progress: u32, effects: Effects) -> State
    requires cp { cp ≤ 1000 }
    requires durability { durability ≤ 100 }
    requires fives { durability % 5 ≡ 0 }
    requires progress { progress ≤ 100000 }
    ensures progress { result.progress ≡ progress }
{
    State {
        cp,
        durability,
        progress,
        quality: 0,
        effects,
    }
}

#[test]
fn budgets(rt: HostRuntime) -> Result<(), Fail> {
    for (g, rho, sigma, slack, whole) in [
        (FOUR_STEPS, 14, 14, 14, 124),
        (ORDINARY, 14, 12, 14, 306),
        (LARGE, 8, 12, 24, 768),
    ] {
        assert_eq!(rt; weights(&g), Weights { rho, sigma, slack });
        assert_eq!(rt; start_potential(&g), whole);
    }
    assert_eq!(rt; quality_size(&LARGE, 16), 14380300);
    assert_eq!(rt; step_size(16), 1196800);
    assert_eq!(rt; potential(&FOUR_STEPS, &state(54, 20, 0, PLAIN)), 124);
    assert_eq!(rt; potential(&FOUR_STEPS, &state(36, 20, 0, PLAIN)), 106);
    Ok(())
}

// The progress of a bucket by a grain: of 150 and of 7000, rounded up.
#[test]
fn scales(rt: HostRuntime) {
    for (grain, small, large) in [(1, 150, 7000), (7, 22, 1000), (16, 10, 438), (64, 3, 110)] {
        assert_eq!(rt; unit(&FOUR_STEPS, grain), small);
        assert_eq!(rt; unit(&LARGE, grain), large);
        let scale = Scale::new(&LARGE, grain);
        assert_eq!(rt; scale.unit, large);
        assert_eq!(rt; scale.weights, weights(&LARGE));
    }
    assert_eq!(rt; Scale::new(&FOUR_STEPS, 16).weights.rho, 14);
    assert_eq!(rt; Scale::new(&LARGE, 16).weights.slack, 24);
}

#[test]
fn relaxed_states(rt: HostRuntime) -> Result<(), Fail> {
    let mut effects = PLAIN;
    effects.iq = 7;
    effects.waste = 8;
    effects.innovation = 4;
    effects.strides = 3;
    effects.muscle = 1;
    effects.manipulation = 8;
    effects.perfection = Perfection::Ready;
    let s = state(300, 70, 3000, effects);
    assert_eq!(rt; potential(&LARGE, &s), 628);
    let x = relax(&LARGE, 16, &s);
    assert_eq!(rt; seen(&x), (9, [7, 4, 0], [true, true]));
    effects = PLAIN;
    effects.iq = 10;
    effects.veneration = 4;
    effects.muscle = 5;
    let s = state(11, 15, 37, effects);
    assert_eq!(rt; potential(&ORDINARY, &s), 67);
    for (g, bucket) in [(ORDINARY, 11), (LARGE, 15)] {
        let x = relax(&g, 16, &s);
        assert_eq!(rt; seen(&x), (bucket, [10, 0, 4], [false, true]));
    }
    Ok(())
}

// A relaxed state: its bucket; Inner Quiet, Innovation and Veneration; Great Strides and Muscle Memory.
type Seen = (u32, [u32; 3], [bool; 2]);

fn seen(x: &Relaxed) -> Seen {
    (
        x.bucket,
        [x.iq, x.innovation, x.veneration],
        [x.strides, x.muscle],
    )
}

// An action, its cost, its gain and the relaxed state after it.
type Move = (Action, u32, u32, Seen);

// Whether an action is such a move of the large craft.
fn leads(x: &Relaxed, row: &Move) -> bool
    requires { x.now.bucket ≤ 16 }
{
    let g = LARGE;
    let (action, cost, gain, next) = *row;
    is_move(&g, x, action)
        && move_cost(&g, action) == cost
        && move_gain(&g, x, action) == gain
        && seen(&move_on(&g, 16, x, action)) == next
}

#[test]
fn moves_of_a_large_craft(rt: HostRuntime) -> Result<(), Fail> {
    use Action::*;
    let x = Relaxed {
        bucket: 16,
        iq: 3,
        innovation: 2,
        veneration: 2,
        strides: true,
        muscle: true,
    };
    for row in [
        (BasicSynthesis, 16, 0, (14, [3, 1, 1], [true, false])),
        (Veneration, 18, 0, (16, [3, 1, 4], [true, true])),
        (StandardTouch, 34, 1442, (16, [4, 1, 1], [false, true])),
        (Innovation, 18, 0, (16, [3, 4, 1], [true, true])),
        (ByregotsBlessing, 40, 1846, (16, [0, 1, 1], [false, true])),
        (PreparatoryTouch, 68, 2307, (16, [5, 1, 1], [false, true])),
        (Groundwork, 46, 0, (10, [3, 1, 1], [true, false])),
        (DelicateSynthesis, 48, 1153, (13, [4, 1, 1], [false, false])),
        (AdvancedTouch, 34, 1730, (16, [4, 1, 1], [false, true])),
        (PrudentSynthesis, 26, 0, (13, [3, 1, 1], [true, false])),
        (RefinedTouch, 40, 1153, (16, [5, 1, 1], [false, true])),
    ] {
        assert!(rt; leads(&x, &row), "{row:?}");
    }
    assert!(rt; !is_move(&LARGE, &x, TrainedFinesse));
    let x = Relaxed {
        bucket: 10,
        iq: 10,
        innovation: 1,
        ..NONE
    };
    for row in [
        (GreatStrides, 32, 0, (10, [10, 0, 0], [true, false])),
        (TrainedFinesse, 32, 1065, (10, [10, 0, 0], [false, false])),
        (CarefulSynthesis, 23, 0, (8, [10, 0, 0], [false, false])),
        (PrudentTouch, 33, 1065, (10, [10, 0, 0], [false, false])),
    ] {
        assert!(rt; leads(&x, &row), "{row:?}");
    }
    assert!(rt; !is_move(&LARGE, &x, Reflect) && !is_move(&LARGE, &x, Manipulation));
    Ok(())
}

#[test]
fn small_costs(rt: HostRuntime) -> Result<(), Fail> {
    assert_eq!(rt; move_cost(&ORDINARY, Action::BasicTouch), 44);
    assert_eq!(rt; move_cost(&ORDINARY, Action::StandardTouch), 44);
    assert_eq!(rt; move_cost(&ORDINARY, Action::BasicSynthesis), 26);
    Ok(())
}

#[test]
fn places(rt: HostRuntime) -> Result<(), Fail> {
    let x = Relaxed {
        veneration: 1,
        strides: true,
        muscle: true,
        ..NONE
    };
    assert_eq!(rt; index(16, 0, &x), 7);
    assert_eq!(rt; of_index(16, 7), (0, x));
    assert_eq!(rt; index(16, 0, &Relaxed { iq: 1, ..NONE }), 100);
    assert_eq!(rt; index(16, 0, &Relaxed { bucket: 1, ..NONE }), 1100);
    assert_eq!(rt; index(16, 1, &NONE), 18700);
    assert_eq!(rt; of_index(16, 18700), (1, NONE));
    Ok(())
}
