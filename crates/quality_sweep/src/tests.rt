ghost use Rattle.std.specs.Prelude.{◌≤◌};

use crate::{Ceiling, Outlook, greatest_from, quick_from};
use action_table::{Action, WantMemory};
use craft_settings::Settings;
use craft_state::State;
use std::alloc::Global;
use std::test::Fail;
use test_crafts::{FOUR_STEPS, ORDINARY, craft};
use test_lists::open_after;

// The cap of a recipe, which no completion exceeds.
#[derive(Drop)]
struct Cap {
    settings: Settings,
}

impl Ceiling for Cap {
    ghost use Rattle.std.specs.Prelude.{Some, ⊤};
    ghost use Rattle.craft_settings.specs.Rules.{cap_of};

    ghost allows = { λ _ _. ⊤ };

    ghost limit_of = { λ c _. Some (cap_of c.settings) };

    fn limit(&self, _s: &State) -> Option<u32> {
        Some(self.settings.cap())
    }

    fn rank(&self, s: &State, _limit: u32) -> u32 {
        s.quality
    }
}

// Whether this is the greatest quality after some actions.
#[tactic(auto, using(crate::proofs::Capped::cap_is_ceiling))]
fn is_greatest(
    alloc: Global,
    g: &Settings,
    done: &[Action],
    expected: Option<u32>,
) -> Result<bool, WantMemory> {
    let Some(from) = open_after(g, done) else {
        return Ok(false);
    };
    let outlook = Outlook {
        g,
        from: &from,
        ceiling: &Cap { settings: *g },
    };
    Ok(greatest_from(alloc, &outlook)? == expected)
}

// Whether this is the quality that narrow dives find from the start.
#[tactic(auto, using(crate::proofs::Capped::cap_is_ceiling))]
fn is_found_soon(alloc: Global, g: &Settings, expected: Option<u32>) -> Result<bool, WantMemory> {
    let Some(from) = open_after(g, &[]) else {
        return Ok(false);
    };
    let outlook = Outlook {
        g,
        from: &from,
        ceiling: &Cap { settings: *g },
    };
    Ok(quick_from(alloc, &outlook)? == expected)
}

// Crafts whose dives reach the cap, and crafts that are swept.
#[test]
fn finds_the_greatest_from_the_start(rt: HostRuntime) -> Result<(), Fail> {
    let rows = [
        (craft(1, 0, 10, 100, 100), Some(0)),
        (craft(1, 0, 10, 101, 100), None),
        (craft(5, 18, 20, 100, 500), Some(100)),
        (craft(5, 18, 20, 100, 100), Some(100)),
        (craft(11, 36, 30, 100, 500), Some(210)),
        (craft(10, 36, 30, 100, 500), Some(200)),
        (FOUR_STEPS, Some(150)),
        (ORDINARY, Some(400)),
        (
            Settings {
                base_progress: 104,
                base_quality: 139,
                forbidden: 49016552,
                ..craft(50, 124, 40, 252, 808)
            },
            Some(457),
        ),
        (
            Settings {
                base_progress: 77,
                base_quality: 93,
                forbidden: 41549188,
                ..craft(20, 88, 15, 435, 572)
            },
            None,
        ),
    ];
    for (g, expected) in &rows {
        assert!(rt; is_greatest(rt.alloc(), g, &[], *expected)?);
    }
    Ok(())
}

// Narrow dives find the greatest quality of crafts of few steps, and nothing where nothing completes.
#[test]
fn finds_the_quality_of_small_crafts_soon(rt: HostRuntime) -> Result<(), Fail> {
    let rows = [
        (craft(1, 0, 10, 100, 100), Some(0)),
        (craft(1, 0, 10, 101, 100), None),
        (craft(5, 18, 20, 100, 500), Some(100)),
        (craft(5, 18, 20, 100, 100), Some(100)),
        (craft(11, 36, 30, 100, 500), Some(210)),
        (craft(10, 36, 30, 100, 500), Some(200)),
        (FOUR_STEPS, Some(150)),
        (ORDINARY, Some(400)),
    ];
    for (g, expected) in &rows {
        assert!(rt; is_found_soon(rt.alloc(), g, *expected)?);
    }
    Ok(())
}

// Of 150 the cap is reached, of 151 it isn't.
#[test]
fn finds_the_greatest_from_mid_craft(rt: HostRuntime) -> Result<(), Fail> {
    use Action::*;
    let few = Settings {
        base_progress: 105,
        base_quality: 113,
        forbidden: 46095064,
        ..craft(100, 93, 30, 226, 1398)
    };
    let hard = Settings {
        base_progress: 77,
        base_quality: 93,
        forbidden: 41549188,
        ..craft(20, 88, 15, 435, 572)
    };
    let (low, high) = (
        with_quality(&FOUR_STEPS, 150),
        with_quality(&FOUR_STEPS, 151),
    );
    let rows: [(&Settings, &[Action], Option<u32>); 10] = [
        (&FOUR_STEPS, &[Veneration], Some(150)),
        (&low, &[Veneration], Some(150)),
        (&high, &[Veneration], Some(150)),
        (&FOUR_STEPS, &[GreatStrides], Some(0)),
        (&FOUR_STEPS, &[StandardTouch], Some(125)),
        (&FOUR_STEPS, &[BasicTouch, Observe], Some(100)),
        (&few, &[Reflect, BasicTouch], Some(474)),
        (&few, &[BasicTouch, RefinedTouch], Some(237)),
        (&hard, &[BasicTouch], None),
        (&hard, &[Veneration], None),
    ];
    for (g, done, expected) in &rows {
        assert!(rt; is_greatest(rt.alloc(), *g, *done, *expected)?);
    }
    Ok(())
}

// The craft with so much quality, all of which counts.
fn with_quality(g: &Settings, quality: u32) -> Settings
    requires { quality ≤ 100000 }
{
    Settings {
        quality,
        target: quality,
        ..*g
    }
}
