use super::*;
use craft_state::{Combo, Effects, Perfection};
use std::test::Fail;
use step_rules::check;

const CRAFT: Settings = Settings {
    level: 100,
    cp: 500,
    durability: 70,
    progress: 300,
    quality: 5000,
    initial: 0,
    base_progress: 100,
    base_quality: 100,
    forbidden: 0,
    target: 5000,
    backload: false,
};

const EFFECTS: Effects = Effects {
    iq: 4,
    waste: 2,
    innovation: 2,
    veneration: 1,
    strides: 1,
    muscle: 0,
    manipulation: 3,
    combo: Combo::Basic,
    perfection: Perfection::Ready,
    first: false,
};

const LESSER: State = State {
    cp: 100,
    durability: 30,
    progress: 150,
    quality: 1000,
    effects: EFFECTS,
};

const GREATER: State = State {
    cp: 120,
    durability: 40,
    progress: 150,
    quality: 1300,
    effects: EFFECTS,
};

// What an action leaves of the greater and of the lesser state, where it is legal.
fn children(action: Action) -> Option<(State, State)> {
    if check(&CRAFT, &LESSER, action).is_ok() {
        Some(child_law(&CRAFT, &GREATER, &LESSER, action))
    } else {
        None
    }
}

// CP, durability, progress and quality.
fn numbers(s: &State) -> [u32; 4] {
    [s.cp, s.durability, s.progress, s.quality]
}

// Standard Touch after Basic Touch costs 18 CP and, under Waste Not, 5 durability, which Manipulation gives back. Its
// quality is 100 * 1.25 * 1.4 * 2.5 = 437.5, rounded down.
#[test]
fn a_touch(rt: HostRuntime) -> Result<(), Fail> {
    let (greater, lesser) = children(Action::StandardTouch).ok_or("not legal")?;
    let effects = Effects {
        iq: 5,
        waste: 1,
        innovation: 1,
        veneration: 0,
        strides: 0,
        muscle: 0,
        manipulation: 2,
        combo: Combo::Standard,
        perfection: Perfection::Ready,
        first: false,
    };
    assert_eq!(rt; numbers(&greater), [102, 40, 150, 1737]);
    assert_eq!(rt; numbers(&lesser), [82, 30, 150, 1437]);
    assert_eq!(rt; greater.effects, effects);
    assert_eq!(rt; lesser.effects, effects);
    Ok(())
}

// Delicate Synthesis costs 32 CP and 5 durability, and would give 225 progress. Its quality is 100 * 1.4 * 2.5 = 350.
// The craft is over, so no time passes.
#[test]
fn a_last_synthesis(rt: HostRuntime) -> Result<(), Fail> {
    let (greater, lesser) = children(Action::DelicateSynthesis).ok_or("not legal")?;
    let effects = Effects {
        iq: 5,
        strides: 0,
        ..EFFECTS
    };
    assert_eq!(rt; numbers(&greater), [88, 35, 300, 1650]);
    assert_eq!(rt; numbers(&lesser), [68, 25, 300, 1350]);
    assert_eq!(rt; greater.effects, effects);
    assert_eq!(rt; lesser.effects, effects);
    Ok(())
}
