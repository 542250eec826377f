use super::*;
use std::test::Fail;
use step_rules::{check, is_final, replay, start};
use test_crafts::FOUR_STEPS;

// The potential after one more action that leaves the craft going.
fn potential_after(g: &Settings, before: &[Action], action: Action) -> Option<u32> {
    match replay(g, &start(g), before) {
        Ok(s) if check(g, &s, action).is_ok() => {
            if is_final(g, &step(g, &s, action)) {
                None
            } else {
                Some(potential_law(g, &s, action))
            }
        }
        _ => None,
    }
}

// The relaxed state after one more action that leaves the craft going.
fn relaxed_after(g: &Settings, before: &[Action], action: Action) -> Option<Relaxed> {
    match replay(g, &start(g), before) {
        Ok(s) if !s.effects.first && check(g, &s, action).is_ok() => {
            if is_final(g, &step(g, &s, action)) {
                None
            } else {
                Some(step_law(g, 16, &s, action))
            }
        }
        _ => None,
    }
}

// The state after a last action that completes the craft.
fn last_after(g: &Settings, before: &[Action], action: Action) -> Option<State> {
    match replay(g, &start(g), before) {
        Ok(s) if !s.effects.first && check(g, &s, action).is_ok() => {
            if step(g, &s, action).progress == g.progress {
                Some(last_law(g, 16, &s, action))
            } else {
                None
            }
        }
        _ => None,
    }
}

#[test]
fn small_craft(rt: HostRuntime) -> Result<(), Fail> {
    let g = FOUR_STEPS;
    assert_eq!(rt; potential(&g, &start(&g)), 124);
    assert_eq!(rt; potential_after(&g, &[], Action::Veneration), Some(106));
    assert_eq!(rt; move_of(&g, Action::Observe), None);
    assert_eq!(rt; move_of(&g, Action::GreatStrides), Some(32));
    let x = relaxed_after(&g, &[Action::Veneration], Action::BasicTouch).ok_or("over")?;
    assert_eq!(rt; (x.bucket, x.iq, x.veneration), (15, 1, 3));
    let last = last_after(&g, &[Action::Veneration], Action::BasicSynthesis).ok_or("not complete")?;
    assert_eq!(rt; (last.progress, last.quality), (150, 0));
    Ok(())
}
