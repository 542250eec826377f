use super::*;
use action_table::Action;
use action_table::Action::*;
use craft_settings::Settings;
use craft_state::{Combo, Perfection, State};
use std::test::Fail;
use test_crafts::craft;

// CP, durability, progress and quality; iq, waste, innovation, veneration, strides, muscle and manipulation; combo and
// perfection.
type Seen = ([u32; 4], [u32; 7], Combo, Perfection);

fn seen(s: &State) -> Seen {
    let e = &s.effects;
    (
        [s.cp, s.durability, s.progress, s.quality],
        [
            e.iq,
            e.waste,
            e.innovation,
            e.veneration,
            e.strides,
            e.muscle,
            e.manipulation,
        ],
        e.combo,
        e.perfection,
    )
}

// Actions that come first, one more, and the state after it, in which there is no combo, and perfection is ready.
const STEPS: [(&[Action], Action, [u32; 4], [u32; 7]); 25] = [
    (
        &[MuscleMemory, Veneration],
        BasicSynthesis,
        [576, 20, 600, 0],
        [0, 0, 0, 3, 0, 0, 0],
    ),
    (
        &[Reflect, PreparatoryTouch],
        MastersMend,
        [466, 40, 0, 540],
        [4, 0, 0, 0, 0, 0, 0],
    ),
    (
        &[WasteNotII, BasicTouch],
        WasteNot,
        [428, 35, 0, 100],
        [1, 4, 0, 0, 0, 0, 0],
    ),
    (
        &[Innovation, BasicTouch],
        Veneration,
        [546, 30, 0, 150],
        [1, 0, 2, 4, 0, 0, 0],
    ),
    (
        &[MuscleMemory],
        GreatStrides,
        [562, 30, 300, 0],
        [0, 0, 0, 0, 3, 4, 0],
    ),
    (
        &[Manipulation, PreparatoryTouch],
        Innovation,
        [446, 30, 0, 200],
        [2, 0, 4, 0, 0, 0, 6],
    ),
    (
        &[WasteNot, Innovation],
        WasteNotII,
        [428, 40, 0, 0],
        [0, 8, 3, 0, 0, 0, 0],
    ),
    (
        &[Reflect, BasicTouch, GreatStrides],
        ByregotsBlessing,
        [520, 10, 0, 836],
        [0, 0, 0, 0, 0, 0, 0],
    ),
    (&[], MuscleMemory, [594, 30, 300, 0], [0, 0, 0, 0, 0, 5, 0]),
    (
        &[MuscleMemory],
        CarefulSynthesis,
        [587, 20, 660, 0],
        [0, 0, 0, 0, 0, 0, 0],
    ),
    (
        &[Manipulation, BasicTouch, BasicTouch],
        Manipulation,
        [372, 30, 0, 210],
        [2, 0, 0, 0, 0, 0, 8],
    ),
    (
        &[BasicTouch],
        PrudentTouch,
        [557, 25, 0, 210],
        [2, 0, 0, 0, 0, 0, 0],
    ),
    (&[], Reflect, [594, 30, 0, 300], [2, 0, 0, 0, 0, 0, 0]),
    (
        &[WasteNot, Innovation],
        PreparatoryTouch,
        [486, 30, 0, 300],
        [2, 2, 3, 0, 0, 0, 0],
    ),
    (
        &[WasteNot, Veneration],
        Groundwork,
        [508, 30, 540, 0],
        [0, 2, 0, 3, 0, 0, 0],
    ),
    (
        &[Veneration, Innovation],
        DelicateSynthesis,
        [532, 30, 225, 150],
        [1, 0, 3, 2, 0, 0, 0],
    ),
    (
        &[BasicTouch, StandardTouch],
        AdvancedTouch,
        [546, 10, 0, 417],
        [3, 0, 0, 0, 0, 0, 0],
    ),
    (
        &[Observe],
        AdvancedTouch,
        [575, 30, 0, 150],
        [1, 0, 0, 0, 0, 0, 0],
    ),
    (
        &[Observe, BasicTouch, Observe],
        StandardTouch,
        [536, 20, 0, 237],
        [2, 0, 0, 0, 0, 0, 0],
    ),
    (
        &[Veneration],
        PrudentSynthesis,
        [564, 35, 270, 0],
        [0, 0, 0, 3, 0, 0, 0],
    ),
    (
        &[
            Reflect,
            WasteNotII,
            PreparatoryTouch,
            PreparatoryTouch,
            ImmaculateMend,
            PreparatoryTouch,
            PreparatoryTouch,
        ],
        TrainedFinesse,
        [192, 20, 0, 1700],
        [10, 2, 0, 0, 0, 0, 0],
    ),
    (
        &[BasicTouch],
        RefinedTouch,
        [558, 20, 0, 210],
        [3, 0, 0, 0, 0, 0, 0],
    ),
    (
        &[Observe],
        RefinedTouch,
        [569, 30, 0, 100],
        [1, 0, 0, 0, 0, 0, 0],
    ),
    (
        &[Manipulation, PreparatoryTouch, BasicTouch],
        ImmaculateMend,
        [334, 40, 0, 320],
        [3, 0, 0, 0, 0, 0, 5],
    ),
    (&[], TrainedEye, [350, 30, 0, 3000], [0, 0, 0, 0, 0, 0, 0]),
];

// The same with combos and with perfection.
const COMBOS: [(&[Action], Action, [u32; 4], [u32; 7], Combo, Perfection); 6] = [
    (
        &[Innovation, GreatStrides],
        BasicTouch,
        [532, 30, 0, 250],
        [1, 0, 2, 0, 0, 0, 0],
        Combo::Basic,
        Perfection::Ready,
    ),
    (
        &[Manipulation, BasicTouch, GreatStrides, PreparatoryTouch],
        Observe,
        [407, 30, 0, 540],
        [3, 0, 0, 0, 0, 0, 4],
        Combo::Standard,
        Perfection::Ready,
    ),
    (
        &[BasicTouch],
        StandardTouch,
        [564, 20, 0, 237],
        [2, 0, 0, 0, 0, 0, 0],
        Combo::Standard,
        Perfection::Ready,
    ),
    (
        &[Veneration, PreparatoryTouch, BasicTouch],
        Groundwork,
        [506, 0, 270, 320],
        [3, 0, 0, 2, 0, 0, 0],
        Combo::Basic,
        Perfection::Ready,
    ),
    (
        &[Manipulation],
        TrainedPerfection,
        [504, 40, 0, 0],
        [0, 0, 0, 0, 0, 0, 7],
        Combo::NoCombo,
        Perfection::On,
    ),
    (
        &[TrainedPerfection, Innovation],
        PreparatoryTouch,
        [542, 40, 0, 300],
        [2, 0, 3, 0, 0, 0, 0],
        Combo::NoCombo,
        Perfection::Spent,
    ),
];

// What is seen of the state after a step of a craft that allows all.
fn stepped(before: &[Action], action: Action) -> Result<Seen, Fail> {
    let g = craft(100, 600, 40, 1000, 3000);
    let state = replay(&g, &start(&g), before).ok().ok_or("stopped")?;
    check(&g, &state, action).ok().ok_or("not legal")?;
    Ok(seen(&step(&g, &state, action)))
}

#[test]
fn each_action_steps(rt: HostRuntime) -> Result<(), Fail> {
    for (before, action, numbers, effects) in &STEPS {
        let after = (*numbers, *effects, Combo::NoCombo, Perfection::Ready);
        assert_eq!(rt; stepped(before, *action)?, after);
    }
    for (before, action, numbers, effects, combo, perfection) in &COMBOS {
        let after = (*numbers, *effects, *combo, *perfection);
        assert_eq!(rt; stepped(before, *action)?, after);
    }
    Ok(())
}

// Actions that come first, one more, and why it isn't legal then.
type Attempt = (&'static [Action], Action, Option<Illegal>);

const MASTER: [Attempt; 22] = [
    (&[], Observe, None),
    (&[], TrainedEye, None),
    (&[Observe], TrainedEye, Some(Illegal::NotFirst)),
    (&[], Reflect, None),
    (&[Observe], Reflect, Some(Illegal::NotFirst)),
    (&[], MuscleMemory, None),
    (&[Observe], MuscleMemory, Some(Illegal::NotFirst)),
    (&[], ByregotsBlessing, Some(Illegal::NoStacks)),
    (&[BasicTouch], ByregotsBlessing, None),
    (&[], TrainedFinesse, Some(Illegal::NotTen)),
    (
        &[
            Reflect,
            WasteNotII,
            PreparatoryTouch,
            PreparatoryTouch,
            ImmaculateMend,
            PreparatoryTouch,
        ],
        TrainedFinesse,
        Some(Illegal::NotTen),
    ),
    (
        &[
            Reflect,
            WasteNotII,
            PreparatoryTouch,
            PreparatoryTouch,
            ImmaculateMend,
            PreparatoryTouch,
            PreparatoryTouch,
        ],
        TrainedFinesse,
        None,
    ),
    (&[WasteNot], PrudentTouch, Some(Illegal::UnderWaste)),
    (&[WasteNot], PrudentSynthesis, Some(Illegal::UnderWaste)),
    (
        &[WasteNot, Observe, Observe, Observe],
        PrudentTouch,
        Some(Illegal::UnderWaste),
    ),
    (
        &[WasteNot, Observe, Observe, Observe, Observe],
        PrudentTouch,
        None,
    ),
    (
        &[WasteNot, Observe, Observe, Observe, Observe],
        PrudentSynthesis,
        None,
    ),
    (&[], TrainedPerfection, None),
    (
        &[TrainedPerfection],
        TrainedPerfection,
        Some(Illegal::PerfectionSpent),
    ),
    (
        &[TrainedPerfection, BasicTouch],
        TrainedPerfection,
        Some(Illegal::PerfectionSpent),
    ),
    (
        &[PreparatoryTouch, PreparatoryTouch],
        Observe,
        Some(Illegal::Finished),
    ),
    (&[PreparatoryTouch], Observe, None),
];

const SEVENTEEN_CP: [Attempt; 5] = [
    (
        &[],
        BasicTouch,
        Some(Illegal::NotEnoughCp { has: 17, needs: 18 }),
    ),
    (&[], Observe, Some(Illegal::NotLearned)),
    (&[], BasicSynthesis, None),
    (&[BasicSynthesis], BasicSynthesis, Some(Illegal::Finished)),
    (
        &[BasicSynthesis],
        BasicTouch,
        Some(Illegal::NotEnoughCp { has: 17, needs: 18 }),
    ),
];

const EIGHTEEN_CP: [Attempt; 1] = [(&[], BasicTouch, None)];

const NO_TRAINED_EYE: [Attempt; 2] = [
    (&[], TrainedEye, Some(Illegal::Forbidden)),
    (&[Observe], TrainedEye, Some(Illegal::Forbidden)),
];

const TEN_CP: [Attempt; 2] = [
    (&[Observe], TrainedEye, Some(Illegal::NotFirst)),
    (&[], ByregotsBlessing, Some(Illegal::NoStacks)),
];

const NO_OBSERVE: [Attempt; 1] = [(&[], Observe, Some(Illegal::NotLearned))];

const BACKLOADED: [Attempt; 5] = [
    (&[], BasicTouch, None),
    (&[BasicSynthesis], BasicTouch, Some(Illegal::Backloaded)),
    (&[BasicSynthesis], BasicSynthesis, None),
    (&[BasicTouch], BasicSynthesis, None),
    (
        &[BasicSynthesis, BasicSynthesis],
        BasicTouch,
        Some(Illegal::Finished),
    ),
];

// Whether each attempt has its answer.
fn answers(g: &Settings, attempts: &[Attempt]) -> bool {
    attempts.iter().all(|(before, action, why)| match replay(g, &start(g), before) {
        Ok(state) => check(g, &state, *action).err() == *why,
        Err(_) => false,
    })
}

#[test]
fn each_reason(rt: HostRuntime) -> Result<(), Fail> {
    let master = craft(100, 600, 40, 1000, 3000);
    assert!(rt; answers(&master, &MASTER));
    assert!(rt; answers(&craft(5, 17, 20, 100, 500), &SEVENTEEN_CP));
    assert!(rt; answers(&craft(5, 18, 20, 100, 500), &EIGHTEEN_CP));
    assert!(rt; answers(&craft(100, 10, 40, 1000, 1000), &TEN_CP));
    let mut no_trained_eye = master;
    no_trained_eye.forbidden = 1 << 25;
    assert!(rt; answers(&no_trained_eye, &NO_TRAINED_EYE));
    let mut no_observe = craft(5, 18, 20, 100, 500);
    no_observe.forbidden = 1 << 3;
    assert!(rt; answers(&no_observe, &NO_OBSERVE));
    let mut backloaded = craft(5, 18, 30, 200, 500);
    backloaded.backload = true;
    assert!(rt; answers(&backloaded, &BACKLOADED));
    Ok(())
}

// What is left of CP and durability, and the progress and quality, after a macro from the start.
fn end(g: &Settings, actions: &[Action]) -> Option<[u32; 4]> {
    let last = replay(g, &start(g), actions).ok()?;
    Some([last.cp, last.durability, last.progress, last.quality])
}

#[test]
fn whole_macros(rt: HostRuntime) {
    let macros: [(Settings, &[Action], [u32; 4]); 14] = [
        (
            craft(15, 18, 20, 150, 0),
            &[Veneration, BasicSynthesis],
            [0, 10, 150, 0],
        ),
        (
            craft(15, 18, 20, 150, 0),
            &[BasicSynthesis, BasicSynthesis],
            [18, 0, 150, 0],
        ),
        (
            craft(26, 54, 20, 150, 500),
            &[Veneration, Innovation, BasicTouch, BasicSynthesis],
            [0, 0, 150, 150],
        ),
        (
            craft(100, 18, 10, 360, 0),
            &[TrainedPerfection, Groundwork],
            [0, 10, 360, 0],
        ),
        (craft(86, 18, 10, 180, 0), &[Groundwork], [0, 0, 180, 0]),
        (craft(86, 18, 10, 181, 0), &[Groundwork], [0, 0, 180, 0]),
        (craft(86, 18, 10, 180, 0), &[MuscleMemory], [12, 0, 180, 0]),
        (
            craft(100, 600, 40, 1000, 1000),
            &[BasicTouch, StandardTouch, AdvancedTouch],
            [546, 10, 0, 417],
        ),
        (
            craft(100, 600, 40, 1000, 1000),
            &[BasicTouch, Observe, StandardTouch],
            [543, 20, 0, 237],
        ),
        (
            craft(100, 600, 40, 1000, 1000),
            &[WasteNot, PreparatoryTouch],
            [504, 30, 0, 200],
        ),
        (
            craft(11, 36, 30, 100, 500),
            &[BasicTouch, BasicTouch, BasicSynthesis],
            [0, 0, 100, 210],
        ),
        (
            craft(10, 36, 30, 100, 500),
            &[BasicTouch, BasicTouch, BasicSynthesis],
            [0, 0, 100, 200],
        ),
        (
            craft(5, 18, 30, 200, 500),
            &[BasicSynthesis, BasicTouch, BasicSynthesis],
            [0, 0, 200, 100],
        ),
        (
            craft(80, 250, 20, 120, 5000),
            &[TrainedEye, BasicSynthesis],
            [0, 0, 120, 5000],
        ),
    ];
    for (g, actions, last) in &macros {
        assert_eq!(rt; end(g, actions), Some(*last));
    }
}

#[test]
fn a_list_stops(rt: HostRuntime) -> Result<(), Fail> {
    let g = craft(100, 600, 40, 1000, 1000);
    let stop = replay(&g, &start(&g), &[Observe, Reflect, Observe])
        .err()
        .ok_or("ran")?;
    assert_eq!(rt; (stop.place, stop.why), (1, Illegal::NotFirst));
    assert_eq!(rt;
        seen(&stop.state),
        ([593, 40, 0, 0], [0; 7], Combo::Standard, Perfection::Ready)
    );
    Ok(())
}

#[test]
fn legal_actions_in_order(rt: HostRuntime) -> Result<(), Fail> {
    let g = craft(26, 54, 20, 150, 500);
    let state = replay(&g, &start(&g), &[Veneration]).ok().ok_or("stopped")?;
    let found = legal(rt.alloc(), &g, &state);
    assert_eq!(rt;
        found.as_slice(),
        [
            BasicSynthesis,
            BasicTouch,
            Observe,
            Veneration,
            StandardTouch,
            GreatStrides,
            Innovation
        ]
        .as_slice()
    );
    Ok(())
}
