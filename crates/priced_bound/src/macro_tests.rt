// The limits of the states on the way of each complete macro of small crafts.
ghost use Rattle.std.specs.Prelude.{◌≡◌, ◌≤◌};

use super::tests::{LEVEL_50, LEVEL_100, PRICINGS, TOUCHES_FIRST, table_of};
use crate::PricedBound;
use action_table::{Action, WantMemory};
use craft_settings::Settings;
use std::alloc::Global;
use std::test::Fail;
use std::thread::Threads;
use step_rules::{counted, is_complete, replay, start};
use test_crafts::{LEVEL_14, LEVEL_73, LEVEL_80, LEVEL_87, LEVEL_96, LEVEL_99};
use test_lists::all_lists;

// Whether the limit of the state after each action but the last of a macro of n actions, with the steps that are then
// left, is at least this quality.
fn keeps_limits(bound: &PricedBound, g: &Settings, actions: &[Action], n: u32, quality: u32) -> bool
    requires { bound.now.by.g ≡ g.now }
{
    if actions.len() != n as usize {
        return false;
    }
    for k in 1..n {
        let Ok(s) = replay(g, &start(g), &actions[..k as usize]) else {
            return false;
        };
        match bound.limit(&s, n - k) {
            Some(most) if quality <= most => {}
            _ => return false,
        }
    }
    true
}

// Whether each complete macro of n actions keeps to the limits, of which there are so many.
fn all_keep_limits(
    alloc: Global,
    bound: &PricedBound,
    g: &Settings,
    n: u32,
    count: usize,
) -> Result<bool, WantMemory>
    requires { bound.now.by.g ≡ g.now }
{
    let mut complete = Vec::new(alloc);
    let lists = all_lists(alloc, g, &start(g), n)?;
    for (place, listed) in lists.iter().enumerate() {
        if is_complete(g, &listed.state) {
            complete.push(place)?;
            if !keeps_limits(bound, g, &listed.actions, n, counted(g, &listed.state)) {
                return Ok(false);
            }
        }
    }
    Ok(complete.len() == count)
}

// How many complete macros there are is what a plain program counts.
#[test]
fn no_macro_has_more_than_the_limits_on_its_way(rt: HostRuntime) -> Result<(), Fail> {
    let rows = [
        (LEVEL_14, 4, 17),
        (LEVEL_50, 5, 168),
        (LEVEL_73, 5, 43),
        (LEVEL_80, 2, 2),
        (LEVEL_87, 2, 1),
        (LEVEL_96, 3, 14),
        (LEVEL_99, 5, 128),
        (LEVEL_100, 3, 313),
        (TOUCHES_FIRST, 4, 291),
    ];
    for (g, n, count) in &rows {
        for pricing in PRICINGS {
            let bound = table_of(&rt, rt.alloc(), g, pricing, *n)?;
            assert!(rt; all_keep_limits(rt.alloc(), &bound, g, *n, *count)?);
        }
    }
    Ok(())
}
