ghost use Rattle.std.specs.Prelude.{IfOk};
ghost use Rattle.step_rules.specs.Legality.{start_of};
ghost use Rattle.step_rules.specs.Macro.{Completes};

use super::*;
use craft_state::State;
use std::test::Fail;
use step_rules::{replay, start};
use test_crafts::{EASY, FOUR_STEPS, ONE_TOUCH, ORDINARY};

const VENERATION: Settings = Settings {
    level: 15,
    progress: 150,
    quality: 0,
    ..ONE_TOUCH
};

const PERFECTION: Settings = Settings {
    level: 100,
    durability: 10,
    progress: 360,
    quality: 0,
    ..ONE_TOUCH
};

const GROUNDWORK: Settings = Settings {
    level: 86,
    progress: 180,
    forbidden: 33560576,
    ..PERFECTION
};

const SAMPLE: Settings = Settings {
    level: 25,
    cp: 87,
    durability: 35,
    progress: 128,
    quality: 374,
    base_progress: 50,
    base_quality: 73,
    ..EASY
};

const INNOVATING: [Action; 4] = [
    Action::Veneration,
    Action::Innovation,
    Action::BasicTouch,
    Action::BasicSynthesis,
];

const STRIDING: [Action; 6] = [
    Action::BasicSynthesis,
    Action::Veneration,
    Action::StandardTouch,
    Action::GreatStrides,
    Action::StandardTouch,
    Action::BasicSynthesis,
];

const TOUCHES_FIRST: [Action; 6] = [
    Action::GreatStrides,
    Action::BasicTouch,
    Action::StandardTouch,
    Action::Veneration,
    Action::BasicSynthesis,
    Action::BasicSynthesis,
];

// A macro that completes a craft, and the text of a style with these counts and limits.
#[derive(Clone, Copy)]
struct Case {
    g: Settings,
    actions: &'static [Action],
    counts: &'static [u64],
    limits: &'static [u32],
    style: Report,
    text: &'static str,
}

const SYNTHESIS: Case = Case {
    g: EASY,
    actions: &[Action::BasicSynthesis],
    counts: &[1],
    limits: &[],
    style: Report::Plain,
    text: test_texts::EASY,
};

const CASES: [Case; 7] = [
    SYNTHESIS,
    Case {
        g: ONE_TOUCH,
        actions: &[Action::BasicTouch, Action::BasicSynthesis],
        counts: &[1, 1],
        text: test_texts::TOUCH,
        ..SYNTHESIS
    },
    Case {
        g: Settings {
            durability: 10,
            ..ONE_TOUCH
        },
        text: test_texts::NO_TOUCH,
        ..SYNTHESIS
    },
    Case {
        g: Settings {
            level: 11,
            cp: 36,
            durability: 30,
            ..ONE_TOUCH
        },
        actions: &[
            Action::BasicTouch,
            Action::BasicTouch,
            Action::BasicSynthesis,
        ],
        counts: &[1, 1, 1],
        text: test_texts::TWO_TOUCHES,
        ..SYNTHESIS
    },
    Case {
        g: Settings {
            level: 7,
            cp: 106,
            ..ONE_TOUCH
        },
        actions: &[Action::BasicTouch, Action::BasicSynthesis],
        counts: &[1, 1],
        text: test_texts::MUCH_CP,
        ..SYNTHESIS
    },
    Case {
        g: VENERATION,
        actions: &[Action::Veneration, Action::BasicSynthesis],
        counts: &[1, 2],
        text: test_texts::VENERATION,
        ..SYNTHESIS
    },
    Case {
        g: FOUR_STEPS,
        actions: &INNOVATING,
        counts: &[1, 4, 9, 3],
        limits: &[250, 187, 150, 150],
        style: Report::Limits,
        text: test_texts::INNOVATION_LIMITS,
    },
];

const MORE_CASES: [Case; 7] = [
    Case {
        g: FOUR_STEPS,
        actions: &INNOVATING,
        counts: &[1, 4, 9, 3],
        style: Report::Levels,
        text: test_texts::INNOVATION_LEVELS,
        ..SYNTHESIS
    },
    Case {
        g: PERFECTION,
        actions: &[Action::TrainedPerfection, Action::Groundwork],
        counts: &[1, 5],
        text: test_texts::PERFECTION,
        ..SYNTHESIS
    },
    Case {
        g: GROUNDWORK,
        actions: &[Action::Groundwork],
        text: test_texts::GROUNDWORK,
        ..SYNTHESIS
    },
    Case {
        g: Settings {
            forbidden: 33554432,
            ..GROUNDWORK
        },
        actions: &[Action::MuscleMemory],
        text: test_texts::MUSCLE_MEMORY,
        ..SYNTHESIS
    },
    Case {
        g: ORDINARY,
        actions: &STRIDING,
        counts: &[1, 4, 14, 33, 43, 8],
        limits: &[400, 400, 400, 400, 400, 400],
        style: Report::Limits,
        text: "steps 6 seconds 16 progress 150/150 quality 400/400
kept 103
macro 1
/ac \"Basic Synthesis\" <wait.3>
/ac \"Veneration\" <wait.2>
/ac \"Standard Touch\" <wait.3>
/ac \"Great Strides\" <wait.2>
/ac \"Standard Touch\" <wait.3>
/ac \"Basic Synthesis\" <wait.3>
replay
  1 Basic Synthesis          60      0  30  180    400
  2 Veneration               60      0  30  162    400
  3 Standard Touch           60    126  20  130    400
  4 Great Strides            60    126  20   98    400
  5 Standard Touch           60    400  10   66    400
  6 Basic Synthesis         150    400   0   66    400
",
    },
    Case {
        g: ORDINARY,
        actions: &STRIDING,
        counts: &[1, 4, 14, 33, 43, 8],
        style: Report::Levels,
        text: test_texts::ORDINARY,
        ..SYNTHESIS
    },
    Case {
        counts: &[18446744073709551615, 18446744073709551615],
        style: Report::Levels,
        text: "steps 1 seconds 3 progress 100/100 quality 0/100
kept 36893488147419103230
macro 1
/ac \"Basic Synthesis\" <wait.3>
replay
  1 Basic Synthesis         100      0   0    0
level 0 18446744073709551615
level 1 18446744073709551615
",
        ..SYNTHESIS
    },
];

// The last state, where the actions complete the craft.
fn completed(g: &Settings, actions: &[Action]) -> Result<State, Fail>
    ensures { IfOk result (λ last. Completes g.now (start_of g.now) actions.now) }
{
    let last = replay(g, &start(g), actions).ok().ok_or("stopped")?;
    if last.progress == g.progress {
        Ok(last)
    } else {
        Err(Fail::from("not complete"))
    }
}

fn is_reported(alloc: Global, case: &Case) -> Result<bool, Fail> {
    completed(&case.g, case.actions)?;
    if case.style == Report::Limits && case.limits.len() != case.actions.len() {
        return Ok(false);
    }
    let text = report(
        alloc,
        &case.g,
        case.actions,
        case.counts,
        case.limits,
        &case.style,
    )?;
    Ok(text.as_slice() == case.text.as_bytes())
}

#[test]
fn reports(rt: HostRuntime) -> Result<(), Fail> {
    for case in &CASES {
        assert!(rt; is_reported(rt.alloc(), case)?, "{}", case.text);
    }
    Ok(())
}

#[test]
fn reports_more(rt: HostRuntime) -> Result<(), Fail> {
    for case in &MORE_CASES {
        assert!(rt; is_reported(rt.alloc(), case)?, "{}", case.text);
    }
    Ok(())
}

#[test]
fn writes_lines(rt: HostRuntime) -> Result<(), Fail> {
    let alloc = rt.alloc();
    let g = ONE_TOUCH;
    let touched = replay(&g, &start(&g), &[Action::BasicTouch]);
    let touched = touched.ok().ok_or("stopped")?;
    let line = table_line(alloc, 1, Action::BasicTouch, &touched)?;
    let expected = b"  1 Basic Touch               0    100  10    0\n";
    assert!(rt; line.as_slice() == expected.as_slice());
    let actions = [Action::BasicTouch, Action::BasicSynthesis];
    let first = head(alloc, &g, &actions, &touched)?;
    let expected = b"steps 2 seconds 6 progress 100/100 quality 100/500\n";
    assert!(rt; first.as_slice() == expected.as_slice());
    Ok(())
}

#[test]
fn reports_samples(rt: HostRuntime) -> Result<(), Fail> {
    let alloc = rt.alloc();
    completed(&SAMPLE, &TOUCHES_FIRST)?;
    let text = sample_report(alloc, 1, &SAMPLE, &TOUCHES_FIRST, &[1, 4, 12, 23, 28, 18])?;
    let expected =
        b"sample 1 level 25 cp 87 durability 35 progress 128 quality 374 base 50 73\nsteps 6 seconds 16 quality 246/374 kept 86\n";
    assert!(rt; text.as_slice() == expected.as_slice());
    let text = sample_none(alloc, 0, &EASY)?;
    let expected =
        b"sample 0 level 1 cp 0 durability 10 progress 100 quality 100 base 100 100\nnone\n";
    assert!(rt; text.as_slice() == expected.as_slice());
    Ok(())
}
