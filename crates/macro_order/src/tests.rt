use super::*;
use action_table::Action::*;
use test_crafts::{FOUR_STEPS, TWO_TOUCHES};

// Quality, steps and seconds of a list that completes the craft.
fn numbers(g: &Settings, actions: &[Action]) -> Option<(u32, u32, u32)> {
    score(g, actions).map(|s| (s.quality, s.steps, s.seconds))
}

// Whether both complete the craft, and the first alone is better.
fn beats(g: &Settings, first: &[Action], second: &[Action]) -> bool {
    match (score(g, first), score(g, second)) {
        (Some(a), Some(b)) => better(&a, first, &b, second) && !better(&b, second, &a, first),
        _ => false,
    }
}

#[test]
fn quality_counts_up_to_the_target(rt: HostRuntime) {
    let (short, long) = (
        [BasicTouch, BasicSynthesis],
        [BasicTouch, BasicTouch, BasicSynthesis],
    );
    let mut g = TWO_TOUCHES;
    assert_eq!(rt; numbers(&g, &short), Some((100, 2, 6)));
    assert_eq!(rt; numbers(&g, &long), Some((210, 3, 9)));
    assert!(rt; beats(&g, &long, &short));
    g.target = 150;
    assert_eq!(rt; numbers(&g, &long), Some((150, 3, 9)));
    assert!(rt; beats(&g, &long, &short));
    g.target = 100;
    assert!(rt; beats(&g, &short, &long));
}

#[test]
fn seconds_and_then_the_action_order_decide(rt: HostRuntime) {
    let g = FOUR_STEPS;
    let first = [Veneration, Innovation, BasicTouch, BasicSynthesis];
    assert_eq!(rt; numbers(&g, &first), Some((150, 4, 10)));
    assert!(rt;
        beats(
            &g,
            &first,
            &[Innovation, Veneration, BasicTouch, BasicSynthesis]
        )
    );
    assert!(rt;
        beats(
            &g,
            &first,
            &[Innovation, BasicTouch, Veneration, BasicSynthesis]
        )
    );
    assert!(rt;
        beats(
            &g,
            &[Veneration, BasicSynthesis],
            &[BasicSynthesis, BasicSynthesis]
        )
    );
    assert!(rt; !beats(&g, &first, &first));
}

#[test]
fn only_complete_legal_lists_have_a_score(rt: HostRuntime) {
    let g = TWO_TOUCHES;
    assert_eq!(rt; numbers(&g, &[]), None);
    assert_eq!(rt; numbers(&g, &[BasicTouch, BasicTouch, BasicTouch]), None);
    assert_eq!(rt; numbers(&g, &[BasicSynthesis, BasicTouch]), None);
    assert_eq!(rt; numbers(&g, &[BasicSynthesis]), Some((0, 1, 3)));
}

// The seconds of a list that isn't too long.
fn seconds_in(actions: &[Action]) -> Option<u32> {
    if actions.len() > 1000 {
        return None;
    }
    Some(seconds(actions))
}

// The six actions that take two seconds, and the others, which take three.
#[test]
fn seconds_of_lists(rt: HostRuntime) {
    let rows: [(&[Action], u32); 6] = [
        (&[], 0),
        (&[Veneration, BasicSynthesis], 5),
        (&[Veneration, Innovation, BasicTouch, BasicSynthesis], 10),
        (
            &[
                WasteNot,
                Veneration,
                GreatStrides,
                Innovation,
                WasteNotII,
                Manipulation,
            ],
            12,
        ),
        (
            &[
                BasicSynthesis,
                BasicTouch,
                MastersMend,
                Observe,
                StandardTouch,
                ByregotsBlessing,
                MuscleMemory,
                CarefulSynthesis,
                PrudentTouch,
                Reflect,
            ],
            30,
        ),
        (
            &[
                PreparatoryTouch,
                Groundwork,
                DelicateSynthesis,
                AdvancedTouch,
                PrudentSynthesis,
                TrainedFinesse,
                RefinedTouch,
                ImmaculateMend,
                TrainedPerfection,
                TrainedEye,
            ],
            30,
        ),
    ];
    for (actions, total) in &rows {
        assert_eq!(rt; seconds_in(actions), Some(*total));
    }
}
