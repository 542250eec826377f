ghost use Rattle.std.specs.Prelude.{◌≤◌, ◌<◌};
ghost use Rattle.priced_moves.specs.Prices.{AreFair, AreSmall};

use super::*;
use craft_settings::Settings;
use craft_state::{Combo, Effects, Perfection, State};
use std::test::Fail;
use test_crafts::{LARGE, ORDINARY, craft};
use test_draws::draw;

const LARGE_UNITS: Units = Units {
    progress: 26100,
    share: 200,
    quality: 1,
};

const ROUGH: Units = Units {
    progress: 31,
    share: 2,
    quality: 1,
};

const EFFECTS: Effects = Effects {
    iq: 0,
    waste: 0,
    innovation: 0,
    veneration: 0,
    strides: 0,
    muscle: 0,
    manipulation: 0,
    combo: Combo::NoCombo,
    perfection: Perfection::Ready,
    first: false,
};

const PLAIN: Seen = Seen {
    need: 0,
    iq: 0,
    innovation: 0,
    veneration: 0,
    strides: false,
    muscle: false,
    combo: Combo::NoCombo,
    begun: false,
};

const RAISED: Seen = Seen {
    iq: 10,
    innovation: 2,
    strides: true,
    ..PLAIN
};

// How many edges there are, and the sums of what they cost and gain and of their shifts.
fn sums(edges: &[Edge]) -> (usize, u32, u32, u32) {
    let mut cost = 0u32;
    let mut gain = 0u32;
    let mut shift = 0u32;
    for edge in edges {
        cost = cost.wrapping_add(edge.cost);
        gain = gain.wrapping_add(edge.gain);
        shift = shift.wrapping_add(edge.shift);
    }
    (edges.len(), cost, gain, shift)
}

#[test]
fn fair_prices(rt: HostRuntime) -> Result<(), Fail> {
    let p = Prices::fair(&LARGE, 1, 20, 1);
    assert_eq!(rt; (p.five, p.waste), (10, 14));
    let p = Prices::fair(&LARGE, 2, 0, 2);
    assert_eq!(rt; (p.five, p.waste), (17, 24));
    let p = Prices::fair(&LARGE, 2, 40, 2);
    assert_eq!(rt; (p.five, p.waste), (20, 29));
    let p = Prices::fair(&ORDINARY, 1, 20, 1);
    assert_eq!(rt; (p.five, p.waste), (18, 14));
    let p = Prices::fair(&ORDINARY, 1, 0, 1);
    assert_eq!(rt; (p.five, p.waste), (14, 12));
    let p = Prices::of_steps(&LARGE);
    assert_eq!(rt; (p.five, p.waste, p.step), (0, 0, 1));
    Ok(())
}

#[test]
fn worths(rt: HostRuntime) -> Result<(), Fail> {
    let start = State {
        cp: 600,
        durability: 70,
        progress: 0,
        quality: 0,
        effects: EFFECTS,
    };
    let middle = State {
        cp: 50,
        durability: 15,
        progress: 0,
        quality: 0,
        effects: Effects {
            manipulation: 6,
            waste: 3,
            perfection: Perfection::On,
            ..EFFECTS
        },
    };
    let p = Prices::fair(&LARGE, 1, 20, 1);
    assert_eq!(rt; worth(&p, &start, 20), 1170);
    assert_eq!(rt; worth(&p, &start, 1), 790);
    assert_eq!(rt; worth(&p, &middle, 9), 412);
    assert_eq!(rt; worth(&p, &middle, 3), 252);
    assert_eq!(rt; worth(&p, &middle, 1), 164);
    let p = Prices::fair(&LARGE, 2, 40, 2);
    assert_eq!(rt; worth(&p, &start, 20), 1170);
    assert_eq!(rt; worth(&p, &middle, 9), 413);
    assert_eq!(rt; worth(&p, &middle, 3), 253);
    let p = Prices::of_steps(&LARGE);
    assert_eq!(rt; worth(&p, &middle, 9), 9);
    Ok(())
}

#[test]
fn seen_states(rt: HostRuntime) -> Result<(), Fail> {
    let s = State {
        cp: 50,
        durability: 15,
        progress: 6739,
        quality: 0,
        effects: Effects {
            iq: 10,
            innovation: 2,
            strides: 1,
            ..EFFECTS
        },
    };
    let x = seen(&LARGE, &LARGE_UNITS, &s);
    assert_eq!(rt; x, Seen { need: 2, ..RAISED });
    assert_eq!(rt;
        price(
            &Prices::of_steps(&LARGE),
            &LARGE,
            Combo::NoCombo,
            action_table::Action::Observe
        ),
        1
    );
    Ok(())
}

#[test]
fn edges_of_a_large_craft(rt: HostRuntime) -> Result<(), Fail> {
    let p = Prices::fair(&LARGE, 2, 40, 2);
    let found = edges(rt.alloc(), &p, &LARGE, &LARGE_UNITS, &PLAIN)
        .ok()
        .ok_or("want of memory")?;
    assert_eq!(rt; sums(&found), (19, 1360, 6707, 23));
    let found = edges(rt.alloc(), &p, &LARGE, &LARGE_UNITS, &RAISED)
        .ok()
        .ok_or("want of memory")?;
    assert_eq!(rt; sums(&found), (21, 1476, 35409, 23));
    let basic = Seen {
        combo: Combo::Basic,
        ..RAISED
    };
    let found = combo_edges(rt.alloc(), &p, &LARGE, &LARGE_UNITS, &basic)
        .ok()
        .ok_or("want of memory")?;
    assert_eq!(rt; sums(&found), (3, 238, 7808, 0));
    let begun = Seen {
        begun: true,
        ..PLAIN
    };
    let found = edges(rt.alloc(), &p, &LARGE, &LARGE_UNITS, &begun)
        .ok()
        .ok_or("want of memory")?;
    assert_eq!(rt; sums(&found).2, 0);
    Ok(())
}

fn drawn_craft(x: &mut u32) -> Settings {
    let level = 1 + draw(x, 100);
    let durability = 10 + 5 * draw(x, 10);
    let progress = 100 + draw(x, 400);
    let quality = 200 + draw(x, 2000);
    Settings {
        base_progress: 40 + draw(x, 60),
        base_quality: 60 + draw(x, 60),
        forbidden: draw(x, 8192) * 8192 + draw(x, 8192),
        backload: draw(x, 4) == 0,
        ..craft(level, 1000, durability, progress, quality)
    }
}

fn drawn_state(x: &mut u32, g: &Settings) -> State
    ensures { result.progress ≤ g.now.progress }
{
    State {
        cp: draw(x, 30),
        durability: 5 + 5 * draw(x, 2),
        progress: draw(x, 2) * (g.progress / 2),
        quality: draw(x, g.quality.max(1)),
        effects: Effects {
            iq: draw(x, 11),
            waste: draw(x, 3),
            innovation: draw(x, 5),
            veneration: draw(x, 5),
            strides: draw(x, 4),
            muscle: draw(x, 6),
            manipulation: draw(x, 2),
            combo: match draw(x, 3) {
                0 => Combo::NoCombo,
                1 => Combo::Basic,
                _ => Combo::Standard,
            },
            perfection: match draw(x, 5) {
                0 => Perfection::Ready,
                1 => Perfection::On,
                _ => Perfection::Spent,
            },
            first: false,
        },
    }
}

// One more than the limit, 0 where there is none; None where the worth is too great to try each list of moves.
fn small_limit(p: &Prices, most: u32, g: &Settings, s: &State, steps: u32) -> Option<u32>
    requires prices { AreSmall p.now }
    requires fair { AreFair g.now p.now }
    requires progress { s.now.progress ≤ g.now.progress }
    requires steps { steps ≤ 3 }
{
    if worth(p, s, steps) > most {
        return None;
    }
    Some(match limit(p, g, &ROUGH, s, steps) {
        Some(quality) => quality.wrapping_add(1),
        None => 0,
    })
}

// The limits of drawn states, each by one of three prices, are those of a plain program with tables.
#[test]
fn limits_of_drawn_states(rt: HostRuntime) -> Result<(), Fail> {
    let mut tried = 0u32;
    let mut hash = 0u32;
    for n in 0..3000u32 {
        let mut x = n;
        let g = drawn_craft(&mut x);
        let s = drawn_state(&mut x, &g);
        let steps = 1 + draw(&mut x, 3);
        let found = match n % 3 {
            0 => small_limit(&Prices::of_steps(&g), 3, &g, &s, steps),
            1 => small_limit(&Prices::fair(&g, 1, 200, 200), 4, &g, &s, steps),
            _ => small_limit(&Prices::fair(&g, 2, 80, 60), 6, &g, &s, steps),
        };
        if let Some(number) = found {
            tried = tried.wrapping_add(1);
            hash = hash.wrapping_mul(31).wrapping_add(number);
        }
    }
    assert_eq!(rt; (tried, hash), (1941, 76616553));
    Ok(())
}
