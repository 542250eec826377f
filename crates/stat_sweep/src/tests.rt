ghost use Rattle.std.specs.Prelude.{◌≡◌, ◌≤◌, IsTrue, Some};
ghost use Rattle.macro_order.specs.declared.scores.Score.{Score as ScoreFields};
ghost use Rattle.macro_order.specs.Order.{score_of, is_better, IsBest, NothingCompletes};

use super::*;
use action_table::Action::{self, BasicSynthesis, BasicTouch};
use macro_order::{Score, better, score};

// Answers the best macro of a craft below level 7 with at most 20 durability: one of three lists is it, if any
// completes the craft. It refuses every other craft, as if for memory.
#[derive(Drop)]
struct SmallSolver {
    calls: u32,
}

impl Solver for SmallSolver {
    ghost calls = { λ s. s.calls };

    fn solve(&mut self, alloc: Global, g: &Settings) -> Result<Option<Vec<Action>>, WantMemory> {
        self.calls += 1;
        if g.level > 6 || g.durability > 20 {
            return Err(WantMemory);
        }
        if completes_nowhere(g) {
            return Ok(None);
        }
        let lists: [&[Action]; 3] = [
            &[BasicSynthesis],
            &[BasicSynthesis, BasicSynthesis],
            &[BasicTouch, BasicSynthesis],
        ];
        for actions in lists {
            if is_best(g, actions) {
                return Ok(Some(Vec::from_slice(alloc, actions)?));
            }
        }
        Err(WantMemory)
    }
}

fn completes_nowhere(g: &Settings) -> bool
    requires level { g.now.level ≤ 6 }
    requires durability { g.now.durability ≤ 20 }
    requires progress { 1 ≤ g.now.progress }
    ensures { IsTrue result → NothingCompletes g.now }
{
    let None = score(g, &[BasicSynthesis]) else {
        return false;
    };
    let None = score(g, &[BasicSynthesis, BasicSynthesis]) else {
        return false;
    };
    let None = score(g, &[BasicTouch, BasicSynthesis]) else {
        return false;
    };
    true
}

fn is_best(g: &Settings, actions: &[Action]) -> bool
    requires level { g.now.level ≤ 6 }
    requires durability { g.now.durability ≤ 20 }
    requires progress { 1 ≤ g.now.progress }
    ensures { IsTrue result → IsBest g.now actions.now }
{
    let Some(own) = score(g, actions) else {
        return false;
    };
    let by_once = is_beaten(g, actions, &own, &[BasicSynthesis]);
    if by_once {
        return false;
    }
    let by_twice = is_beaten(g, actions, &own, &[BasicSynthesis, BasicSynthesis]);
    if by_twice {
        return false;
    }
    let by_touched = is_beaten(g, actions, &own, &[BasicTouch, BasicSynthesis]);
    !by_touched
}

// Whether the other list completes the craft better.
fn is_beaten(g: &Settings, actions: &[Action], own: &Score, other: &[Action]) -> bool
    requires { score_of g.now actions.now ≡ Some own.now }
    ensures { (b : ScoreFields) → score_of g.now other.now ≡ Some b → is_better b other.now own.now actions.now ≡ result }
{
    match score(g, other) {
        Some(b) => better(&b, other, own, actions),
        None => false,
    }
}

// What a sweep is to find.
#[derive(Drop)]
enum Expected<'a> {
    Nothing,
    Short(&'a [Action]),
    Least(u32, &'a [Action], Option<&'a [Action]>),
}

fn is_plan(plan: &Plan, actions: &[Action]) -> bool {
    plan.actions.as_slice() == actions
}

fn is_found(found: &Swept, expected: &Expected<'_>) -> bool {
    match (found, expected) {
        (Swept::Nothing, Expected::Nothing) => true,
        (Swept::Short { at }, Expected::Short(actions)) => is_plan(at, actions),
        (Swept::Least { base, at, below }, Expected::Least(least, actions, less)) => {
            let same_below = match (below, less) {
                (Some(plan), Some(actions)) => is_plan(plan, actions),
                (None, None) => true,
                _ => false,
            };
            base == least && is_plan(at, actions) && same_below
        }
        _ => false,
    }
}

fn finds(alloc: Global, g: &Settings, expected: &Expected<'_>) -> Result<bool, WantMemory> {
    let mut solver = SmallSolver { calls: 0 };
    let found = sweep(alloc, g, &mut solver)?;
    Ok(is_found(&found, expected))
}

const CRAFT: Settings = Settings {
    level: 5,
    cp: 18,
    durability: 20,
    progress: 100,
    quality: 500,
    initial: 0,
    base_progress: 100,
    base_quality: 100,
    forbidden: 0,
    target: 100000,
    backload: false,
};

const TOUCHED: [Action; 2] = [BasicTouch, BasicSynthesis];

// The quality of a touch is the base quality.
#[test]
fn finds_the_least_base_quality(rt: HostRuntime) {
    for quality in [2, 499, 500, 2500, 2501, 4999, 5000] {
        let g = Settings { quality, ..CRAFT };
        let expected = Expected::Least(quality, &TOUCHED, Some(&TOUCHED));
        assert!(rt; finds(rt.alloc(), &g, &expected).ok() == Some(true));
    }
}

#[test]
fn finds_what_is_due(rt: HostRuntime) {
    let once: &[Action] = &[BasicSynthesis];
    let first = Settings {
        level: 1,
        cp: 0,
        durability: 10,
        ..CRAFT
    };
    let rows = [
        (
            Settings {
                quality: 5001,
                ..CRAFT
            },
            Expected::Short(&TOUCHED),
        ),
        (
            Settings {
                quality: 5001,
                target: 5000,
                ..CRAFT
            },
            Expected::Least(5000, &TOUCHED, Some(&TOUCHED)),
        ),
        (
            Settings {
                target: 300,
                ..CRAFT
            },
            Expected::Least(300, &TOUCHED, Some(&TOUCHED)),
        ),
        (
            Settings {
                quality: 1,
                ..CRAFT
            },
            Expected::Least(1, &TOUCHED, None),
        ),
        (
            Settings {
                initial: 500,
                ..CRAFT
            },
            Expected::Least(1, once, None),
        ),
        (
            Settings {
                progress: 200,
                ..CRAFT
            },
            Expected::Short(&[BasicSynthesis, BasicSynthesis]),
        ),
        (
            Settings {
                durability: 10,
                ..CRAFT
            },
            Expected::Short(once),
        ),
        (
            Settings {
                quality: 0,
                ..first
            },
            Expected::Least(1, once, None),
        ),
        (
            Settings {
                progress: 101,
                quality: 100,
                ..first
            },
            Expected::Nothing,
        ),
    ];
    for (g, expected) in &rows {
        assert!(rt; finds(rt.alloc(), g, expected).ok() == Some(true));
    }
}
