ghost use Rattle.std.specs.Prelude.{◌≡◌, ◌≤◌, ◌<◌, ⊤, MatchOption, IfOk};
ghost use Rattle.step_rules.specs.Legality.{IsWithin};

use crate::{MOST_LEFT, MOST_NEED, PricedBound, Pricing, Reckoning, all_reach};
use action_table::{Action, WantMemory};
use craft_settings::Settings;
use craft_state::State;
use std::alloc::Global;
use std::test::Fail;
use std::thread::Threads;
use step_rules::{check, is_final, start, step};

pub(crate) const LEVEL_50: Settings = Settings {
    level: 50,
    cp: 60,
    durability: 20,
    progress: 110,
    quality: 4000,
    initial: 0,
    base_progress: 50,
    base_quality: 101,
    forbidden: 33554432,
    target: 4000,
    backload: false,
};

pub(crate) const LEVEL_100: Settings = Settings {
    level: 100,
    cp: 70,
    durability: 20,
    progress: 700,
    quality: 12000,
    initial: 0,
    base_progress: 290,
    base_quality: 355,
    forbidden: 33554432,
    target: 12000,
    backload: false,
};

// All touches come first, and Careful Synthesis is forbidden.
pub(crate) const TOUCHES_FIRST: Settings = Settings {
    level: 80,
    cp: 70,
    durability: 25,
    progress: 250,
    quality: 3000,
    initial: 0,
    base_progress: 120,
    base_quality: 150,
    forbidden: 33558528,
    target: 3000,
    backload: true,
};

pub(crate) const PRICINGS: [Pricing; 4] = [
    Pricing::Durability,
    Pricing::Steps,
    Pricing::CoarseSteps,
    Pricing::FreeSteps,
];

// For how many steps from the start a table is filled.
const STEPS: u32 = 6;

// One of the numbers below, drawn.
fn draw(x: &mut u32, below: u32) -> u32
    requires { 1 ≤ below }
    ensures { result < below }
{
    *x = x.wrapping_mul(1103515245).wrapping_add(12345) & 0x7fffffff;
    (*x >> 16) % below
}

// The state after a drawn action, where that is legal and leaves the craft going.
fn drawn_step(g: &Settings, s: &State, x: &mut u32) -> Option<State>
    requires { IsWithin g.now s.now }
    ensures { MatchOption result ⊤ (IsWithin g.now) }
{
    let action = Action::from_number(draw(x, 26) as u8)?;
    if check(g, s, action).is_ok() {
        let next = step(g, s, action);
        if !is_final(g, &next) {
            return Some(next);
        }
    }
    None
}

// A state on a drawn macro of less than STEPS steps, and a number of steps left.
#[derive(Drop)]
struct Drawn {
    state: State,
    left: u32,
}

fn drawn_state(g: &Settings, seed: u32) -> Option<Drawn>
    ensures { MatchOption result ⊤ (λ d. IsWithin g.now d.state) }
{
    let mut x = seed;
    let mut state = start(g);
    let mut done = 0;
    let length = 1 + draw(&mut x, 12);
    for tried in 0..60u32 {
        let _tried = tried;
        if done < length {
            if let Some(next) = drawn_step(g, &state, &mut x) {
                state = next;
                done += 1;
            }
        }
    }
    if done == 0 || done >= STEPS {
        return None;
    }
    let left = 1 + draw(&mut x, STEPS - done);
    Some(Drawn { state, left })
}

// The table of a craft for so many steps from its start.
pub(crate) fn table_of(
    rt: &(impl Threads + Sync),
    alloc: Global,
    g: &Settings,
    pricing: Pricing,
    steps: u32,
) -> Result<PricedBound, WantMemory>
    requires { steps ≤ 300 }
    ensures { IfOk result (λ b. b.by.g ≡ g.now) }
{
    let by = Reckoning::new(g, pricing, MOST_NEED);
    let top = by.worth(&start(g), steps);
    PricedBound::new(rt, alloc, &by, top, 2)
}

// The seed of a drawn state, the steps left, and its limits by the four prices.
type Row = (u32, u32, [Option<u32>; 4]);

// Whether a table tells one of the limits of a row.
fn tells(bound: &PricedBound, g: &Settings, row: &Row, place: usize) -> bool
    requires craft { bound.now.by.g ≡ g.now }
    requires place { place < 4 }
{
    let (seed, left, limits) = *row;
    match drawn_state(g, seed) {
        Some(d) => d.left == left && bound.limit(&d.state, left) == limits[place],
        None => false,
    }
}

// Whether the tables of a craft tell all these limits.
fn tell_all(
    rt: &(impl Threads + Sync),
    alloc: Global,
    g: &Settings,
    rows: &[Row],
) -> Result<bool, WantMemory> {
    for place in 0..4usize {
        let bound = table_of(rt, alloc, g, PRICINGS[place], STEPS)?;
        for row in rows {
            if !tells(&bound, g, row, place) {
                return Ok(false);
            }
        }
    }
    Ok(true)
}

#[test]
fn tells_what_a_plain_program_does(rt: HostRuntime) -> Result<(), Fail> {
    let rows = [
        (1, 3, [Some(523), Some(252), Some(315), Some(0)]),
        (3, 1, [Some(0), Some(0), Some(0), Some(101)]),
        (5, 2, [Some(315), Some(0), Some(0), Some(0)]),
        (7, 3, [Some(264), Some(202), Some(252), Some(151)]),
        (8, 2, [Some(126), None, Some(126), None]),
        (9, 5, [Some(448), Some(239), Some(267), Some(101)]),
        (12, 1, [None, None, None, Some(101)]),
    ];
    assert!(rt; tell_all(&rt, rt.alloc(), &LEVEL_50, &rows)?);
    let rows = [
        (0, 4, [Some(2591), Some(1834), Some(1834), Some(1834)]),
        (1, 1, [Some(1100), Some(1100), Some(1100), Some(1295)]),
        (2, 1, [Some(1704), None, None, None]),
        (5, 2, [Some(2111), Some(1472), Some(1472), Some(1472)]),
        (6, 1, [Some(355), Some(532), Some(532), Some(1065)]),
        (7, 1, [Some(355), Some(355), Some(355), Some(0)]),
        (8, 1, [Some(833), Some(833), Some(833), Some(1028)]),
        (9, 5, [Some(3159), Some(1917), Some(1917), Some(1579)]),
    ];
    assert!(rt; tell_all(&rt, rt.alloc(), &LEVEL_100, &rows)?);
    let rows = [
        (0, 4, [Some(150), Some(150), Some(150), Some(150)]),
        (2, 1, [Some(630), Some(630), Some(630), Some(630)]),
        (8, 2, [Some(352), Some(352), Some(352), None]),
        (9, 5, [Some(1320), Some(645), Some(645), Some(397)]),
        (14, 2, [Some(356), Some(348), Some(348), Some(397)]),
        (16, 3, [Some(1455), Some(675), Some(675), None]),
        (17, 1, [None, None, None, None]),
        (18, 3, [Some(660), Some(300), Some(300), None]),
    ];
    assert!(rt; tell_all(&rt, rt.alloc(), &TOUCHES_FIRST, &rows)?);
    Ok(())
}

// 13 fives by Immaculate Mend; 161 units of 290 * 30 / 200 points, or 81 of twice as many; 4 units of 50 * 120 / 200.
#[test]
fn reckons_crafts(rt: HostRuntime) -> Result<(), Fail> {
    let endgame = Settings {
        cp: 600,
        durability: 70,
        progress: 7000,
        quality: 15000,
        target: 15000,
        ..LEVEL_100
    };
    for (g, pricing, most_need, left, worth, words) in [
        (endgame, Pricing::Durability, 349, 20, 275, 49183200),
        (endgame, Pricing::Steps, 349, 20, 354, 63261000),
        (endgame, Pricing::CoarseSteps, 349, 20, 177, 31719600),
        (endgame, Pricing::FreeSteps, 349, 20, 761, 135788400),
        (endgame, Pricing::Steps, 81, 20, 354, 32021000),
        (LEVEL_50, Pricing::Steps, 349, 6, 88, 244750),
    ] {
        let by = Reckoning::new(&g, pricing, most_need);
        assert_eq!(rt; by.worth(&start(&g), left), worth);
        assert_eq!(rt; by.words(worth), words);
    }
    Ok(())
}

// Before the first step, with too many steps and beyond the greatest budget a state has all that counts.
#[test]
fn tells_of_no_more_than_its_table(rt: HostRuntime) -> Result<(), Fail> {
    let bound = table_of(&rt, rt.alloc(), &LEVEL_50, Pricing::Steps, 3)?;
    let s = start(&LEVEL_50);
    assert_eq!(rt; bound.limit(&s, 1), Some(4000));
    assert!(rt; bound.reaches(4000, 0, &s));
    let Some(d) = drawn_state(&LEVEL_50, 1) else {
        return Err("not drawn".into());
    };
    assert_eq!(rt; bound.limit(&d.state, 9), Some(4000));
    assert_eq!(rt; bound.limit(&d.state, MOST_LEFT + 1), Some(4000));
    assert!(rt; !bound.reaches(0, 0, &d.state));
    Ok(())
}

// Each table has to let a state through. The limits are those of the state of seed 9 above.
#[test]
fn asks_all(rt: HostRuntime) -> Result<(), Fail> {
    let alloc = rt.alloc();
    let g = LEVEL_50;
    let mut bounds = Vec::new(alloc);
    bounds.push(table_of(&rt, alloc, &g, Pricing::Durability, STEPS)?)?;
    bounds.push(table_of(&rt, alloc, &g, Pricing::Steps, STEPS)?)?;
    let Some(d) = drawn_state(&g, 9) else {
        return Err("not drawn".into());
    };
    assert!(rt; bounds[0].reaches(448, d.left, &d.state));
    assert!(rt; !bounds[0].reaches(449, d.left, &d.state));
    assert!(rt; all_reach(bounds.as_slice(), 239, d.left, &d.state));
    assert!(rt; !all_reach(bounds.as_slice(), 240, d.left, &d.state));
    Ok(())
}
