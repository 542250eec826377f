ghost use Rattle.std.specs.Prelude.{◌≡◌, ◌≤◌, ◌<◌};
ghost use Rattle.step_rules.specs.Legality.{IsWithin};
ghost use Rattle.priced_moves.specs.Prices.{AreFair, AreSmall};

use action_table::Action;
use craft_settings::Settings;
use craft_state::State;
use priced_moves::{Prices, Units, limit, worth};
use std::test::Fail;
use step_rules::{check, is_final, start, step};
use test_crafts::craft;
use test_draws::draw;

const UNITS: Units = Units {
    progress: 31,
    share: 2,
    quality: 3,
};

fn drawn_craft(x: &mut u32) -> Settings {
    let level = 1 + draw(x, 100);
    let cp = 30 + draw(x, 60);
    let durability = 10 + 5 * draw(x, 4);
    let progress = 60 + draw(x, 120);
    let quality = 200 + draw(x, 400);
    Settings {
        base_progress: 60 + draw(x, 60),
        base_quality: 60 + draw(x, 60),
        forbidden: draw(x, 8192) * 8192 + draw(x, 8192),
        backload: draw(x, 4) == 0,
        ..craft(level, cp, durability, progress, quality)
    }
}

// What the macros from a state were found to reach: the best quality that counts, and whether no state on their way has
// a lower limit than a macro through it reaches.
#[derive(Clone, Copy)]
struct Reach {
    best: Option<u32>,
    lawful: bool,
}

// Tries all macros of at most so many steps.
fn tried(p: &Prices, g: &Settings, s: &State, left: u32) -> Reach
    requires prices { AreSmall p.now }
    requires fair { AreFair g.now p.now }
    requires within { IsWithin g.now s.now }
    requires left { left ≤ 3 }
{
    let mut all = Reach {
        best: None,
        lawful: true,
    };
    if s.progress == g.progress {
        all.best = Some(s.quality.min(g.target));
    }
    if left == 0 || is_final(g, s) {
        return all;
    }
    for number in 0..Action::COUNT {
        if let Some(action) = Action::from_number(number) {
            if check(g, s, action).is_ok() {
                let next = tried(p, g, &step(g, s, action), left - 1);
                all.best = greater(all.best, next.best);
                all.lawful = all.lawful && next.lawful;
            }
        }
    }
    let small = worth(p, s, left) <= 6;
    if small && !s.effects.first && exceeds(all.best, limit(p, g, &UNITS, s, left)) {
        all.lawful = false;
    }
    all
}

fn greater(a: Option<u32>, b: Option<u32>) -> Option<u32> {
    match (a, b) {
        (None, _) => b,
        (_, None) => a,
        (Some(m), Some(n)) => Some(m.max(n)),
    }
}

// Whether a macro reaches more than the limit.
fn exceeds(best: Option<u32>, limit: Option<u32>) -> bool {
    match (best, limit) {
        (Some(found), Some(most)) => found > most,
        (Some(_), None) => true,
        (None, _) => false,
    }
}

// By three prices, the macros of drawn crafts reach what a plain program finds, and none beats a limit on its way.
#[test]
fn macros_of_drawn_crafts(rt: HostRuntime) -> Result<(), Fail> {
    let mut hash = 0u32;
    for n in 0..48u32 {
        let mut x = n;
        let g = drawn_craft(&mut x);
        let s = start(&g);
        let all = match n % 3 {
            0 => tried(&Prices::of_steps(&g), &g, &s, 3),
            1 => tried(&Prices::fair(&g, 1, 200, 200), &g, &s, 3),
            _ => tried(&Prices::fair(&g, 2, 80, 60), &g, &s, 3),
        };
        assert!(rt; all.lawful, "at {n}");
        let number = match all.best {
            Some(quality) => quality.wrapping_add(1),
            None => 0,
        };
        hash = hash.wrapping_mul(31).wrapping_add(number);
    }
    assert_eq!(rt; hash, 2946290894);
    Ok(())
}
