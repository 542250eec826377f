use super::*;
use std::test::Fail;
use test_crafts::FOUR_STEPS;

// How many lists a plain program finds, from the start and after Veneration.
#[test]
fn lists_all(rt: HostRuntime) -> Result<(), Fail> {
    let alloc = rt.alloc();
    let from_start = [1, 7, 45, 143, 255, 298];
    let from_veneration = [1, 7, 23, 25, 11];
    let rows: [(&[Action], &[usize]); 2] = [
        (&[], &from_start),
        (&[Action::Veneration], &from_veneration),
    ];
    for (done, counts) in &rows {
        let Some(from) = open_after(&FOUR_STEPS, *done) else {
            return Err("not open".into());
        };
        for (n, &count) in counts.iter().enumerate() {
            assert_eq!(rt;
                all_lists(alloc, &FOUR_STEPS, &from, n as u32)?.len(),
                count
            );
        }
    }
    Ok(())
}

#[test]
fn lists_in_action_order(rt: HostRuntime) -> Result<(), Fail> {
    use Action::*;
    let Some(from) = open_after(&FOUR_STEPS, &[Veneration, Innovation]) else {
        return Err("not open".into());
    };
    let lists = all_lists(rt.alloc(), &FOUR_STEPS, &from, 2)?;
    let expected = [
        ([BasicTouch, BasicSynthesis], 6),
        ([Observe, BasicSynthesis], 6),
        ([Observe, Observe], 6),
        ([Veneration, BasicSynthesis], 5),
        ([Innovation, BasicSynthesis], 5),
    ];
    assert_eq!(rt; lists.len(), expected.len());
    for (listed, (actions, seconds)) in lists.iter().zip(&expected) {
        assert!(rt; listed.actions.as_slice() == actions.as_slice() && listed.seconds == *seconds);
    }
    Ok(())
}

#[test]
fn tells_open_states(rt: HostRuntime) -> Result<(), Fail> {
    use Action::*;
    assert!(rt; open_after(&FOUR_STEPS, &[Veneration, BasicSynthesis]).is_none());
    assert!(rt; open_after(&FOUR_STEPS, &[MuscleMemory]).is_none());
    assert_eq!(rt;
        open_after(&FOUR_STEPS, &[Veneration]).map(|s| s.cp),
        Some(36)
    );
    Ok(())
}
