ghost use Rattle.std.specs.Prelude.{◌≤◌};

use super::*;
use action_table::Action;
use craft_state::{Combo, Effects, Perfection, State};
use std::alloc::AllocError;
use std::test::Fail;

const EFFECTS: Effects = Effects {
    iq: 0,
    waste: 0,
    innovation: 0,
    veneration: 0,
    strides: 0,
    muscle: 0,
    manipulation: 0,
    combo: Combo::NoCombo,
    perfection: Perfection::Spent,
    first: false,
};

const NODE: Node = Node {
    state: State {
        cp: 10,
        durability: 20,
        progress: 30,
        quality: 50,
        effects: EFFECTS,
    },
    seconds: 5,
    parent: 0,
    action: Action::BasicTouch,
};

// A node with these numbers, named by its parent.
fn made(iq: u32, quality: u32, seconds: u32, parent: usize) -> Node
    requires iq { iq ≤ 10 }
    requires quality { quality ≤ 100000 }
{
    let mut effects = EFFECTS;
    effects.iq = iq;
    let state = State {
        cp: 10,
        durability: 20,
        progress: 30,
        quality,
        effects,
    };
    Node {
        state,
        seconds,
        parent,
        action: Action::BasicTouch,
    }
}

#[test]
fn keeps_the_uncovered(rt: HostRuntime) -> Result<(), Fail> {
    let mut level = Vec::new(rt.alloc());
    level.push(made(0, 50, 5, 0))?;
    level.push(made(0, 50, 5, 1))?;
    level.push(made(0, 40, 4, 2))?;
    level.push(made(1, 50, 5, 3))?;
    let kept = prune(&rt, rt.alloc(), level).ok().ok_or("want of memory")?;
    let parents: [usize; 3] = [0, 2, 3];
    assert_eq!(rt; kept.len(), parents.len());
    for (node, parent) in kept.iter().zip(&parents) {
        assert_eq!(rt; node.parent, *parent);
    }
    let none = prune(&rt, rt.alloc(), Vec::new(rt.alloc()))
        .ok()
        .ok_or("want of memory")?;
    assert!(rt; none.is_empty());
    Ok(())
}

#[test]
fn keeps_the_uncovered_in_little_room(rt: HostRuntime) -> Result<(), Fail> {
    let mut level = Vec::new(rt.alloc());
    level.push(PackedNode::of(&made(7, 100000, 5, 0)))?;
    level.push(PackedNode::of(&made(7, 100000, 5, 1)))?;
    level.push(PackedNode::of(&made(10, 40, 4, 2)))?;
    let kept = prune_packed(&rt, rt.alloc(), level)
        .ok()
        .ok_or("want of memory")?;
    let wanted = [made(7, 100000, 5, 0), made(10, 40, 4, 2)];
    assert_eq!(rt; kept.len(), wanted.len());
    for (packed, node) in kept.iter().zip(&wanted) {
        assert_eq!(rt; packed.node(), *node);
    }
    Ok(())
}

#[test]
fn keeps_the_uncovered_of_lists(rt: HostRuntime) -> Result<(), Fail> {
    let first = [PackedNode::of(&made(7, 100000, 5, 0))];
    let second = [
        PackedNode::of(&made(7, 100000, 5, 1)),
        PackedNode::of(&made(10, 40, 4, 2)),
    ];
    let lists: [&[PackedNode]; 4] = [&[], &first, &[], &second];
    let kept = prune_lists(&rt, rt.alloc(), &lists)
        .ok()
        .ok_or("want of memory")?;
    let wanted = [made(7, 100000, 5, 0), made(10, 40, 4, 2)];
    assert_eq!(rt; kept.len(), wanted.len());
    for (packed, node) in kept.iter().zip(&wanted) {
        assert_eq!(rt; packed.node(), *node);
    }
    Ok(())
}

#[test]
fn finds_the_first_cover(rt: HostRuntime) -> Result<(), Fail> {
    let mut columns = Columns::new(rt.alloc());
    assert!(rt; columns.push(10, 20, 5).is_ok());
    assert!(rt; columns.push(30, 20, 5).is_ok());
    assert_eq!(rt; columns.cover([20, 20, 5]), Some(1));
    assert_eq!(rt; columns.cover([10, 20, 5]), Some(0));
    assert_eq!(rt; columns.cover([10, 25, 5]), None);
    columns.clear();
    assert_eq!(rt; columns.cover([0, 0, 0]), None);
    assert!(rt; columns.push(30, 20, 5).is_ok());
    assert_eq!(rt; columns.cover([20, 20, 5]), Some(0));
    Ok(())
}

// Nodes with few numbers each, so that many are equal.
fn drawn(alloc: Global, seed: u32) -> Result<Vec<Node>, AllocError> {
    let mut level = Vec::new(alloc);
    let mut draw = seed;
    for parent in 0..300usize {
        draw = draw.wrapping_mul(1664525).wrapping_add(1013904223);
        let mut node = NODE;
        node.parent = parent;
        node.seconds = draw >> 8 & 3;
        node.state.cp = draw >> 11 & 7;
        node.state.durability = (draw >> 15 & 3) * 5;
        node.state.quality = draw >> 18 & 7;
        node.state.progress = draw >> 22 & 1;
        node.state.effects.iq = draw >> 24 & 1;
        level.push(node)?;
    }
    Ok(level)
}

// Whether some node covers the one at a place, by comparing it with each.
fn is_covered(level: &[Node], place: usize) -> bool {
    let Some(node) = level.get(place) else {
        return false;
    };
    for (earlier, other) in level.iter().enumerate() {
        if other.state.progress == node.state.progress
            && other.state.effects == node.state.effects
            && other.state.cp >= node.state.cp
            && other.state.durability >= node.state.durability
            && other.state.quality >= node.state.quality
            && (other.seconds < node.seconds
                || (other.seconds == node.seconds && earlier < place))
        {
            return true;
        }
    }
    false
}

#[test]
fn prunes_as_the_plain_comparison(rt: HostRuntime) -> Result<(), Fail> {
    for seed in [1, 99, 2026] {
        let level = drawn(rt.alloc(), seed)?;
        let mut expected = Vec::new(rt.alloc());
        for (place, node) in level.iter().enumerate() {
            if !is_covered(&level, place) {
                expected.push(node.parent)?;
            }
        }
        let kept = prune(&rt, rt.alloc(), level).ok().ok_or("want of memory")?;
        assert_eq!(rt; kept.len(), expected.len());
        assert!(rt; kept.len() < 300);
        for (node, parent) in kept.iter().zip(&expected) {
            assert_eq!(rt; node.parent, *parent);
        }
    }
    Ok(())
}

// A state with these numbers, and progress and effects that few states share.
fn offered(cp: u32, durability: u32, quality: u32, progress: u32, iq: u32) -> State
    requires cp { cp ≤ 1000 }
    requires durability { durability ≤ 20 }
    requires quality { quality ≤ 100000 }
    requires progress { progress ≤ 100000 }
    requires iq { iq ≤ 10 }
{
    let mut effects = EFFECTS;
    effects.iq = iq;
    State {
        cp,
        durability: durability * 5,
        progress,
        quality,
        effects,
    }
}

#[test]
fn keeps_what_nothing_covers(rt: HostRuntime) -> Result<(), Fail> {
    let mut kept = Kept::new(rt.alloc());
    let offers = [
        (offered(10, 4, 5, 30, 0), true),
        (offered(10, 4, 5, 30, 0), false),
        (offered(5, 4, 5, 30, 0), false),
        (offered(5, 4, 6, 30, 0), true),
        (offered(10, 5, 5, 30, 0), true),
        (offered(5, 4, 5, 30, 1), true),
        (offered(5, 4, 5, 31, 0), true),
        (offered(0, 0, 0, 30, 1), false),
    ];
    for (s, fresh) in &offers {
        assert_eq!(rt; kept.offer(s).ok(), Some(*fresh));
    }
    assert_eq!(rt; kept.len(), 5);
    assert_eq!(rt; kept.at(1).quality, 6);
    assert_eq!(rt; kept.at(3).effects.iq, 1);
    Ok(())
}

// Whether some state covers another, by comparing it with each.
fn is_in_shadow(states: &[State], s: &State) -> bool {
    states.iter().any(|k| {
        k.progress == s.progress
            && k.effects == s.effects
            && k.cp >= s.cp
            && k.durability >= s.durability
            && k.quality >= s.quality
    })
}

#[test]
fn keeps_as_the_plain_list(rt: HostRuntime) -> Result<(), Fail> {
    let mut kept = Kept::new(rt.alloc());
    let mut plain: Vec<State> = Vec::new(rt.alloc());
    for seed in [1, 99, 2026] {
        for node in &drawn(rt.alloc(), seed)? {
            let fresh = !is_in_shadow(&plain, &node.state);
            assert_eq!(rt; kept.offer(&node.state).ok(), Some(fresh));
            if fresh {
                plain.push(node.state)?;
            }
        }
    }
    assert_eq!(rt; kept.len(), plain.len());
    assert!(rt; plain.len() < 900);
    for (place, s) in plain.iter().enumerate() {
        if place < kept.len() {
            assert_eq!(rt; kept.at(place), *s);
        }
    }
    Ok(())
}

#[test]
fn prunes_a_level_in_parts(rt: HostRuntime) -> Result<(), Fail> {
    let pattern = drawn(rt.alloc(), 7)?;
    let mut expected = Vec::new(rt.alloc());
    for (place, node) in pattern.iter().enumerate() {
        if !is_covered(&pattern, place) {
            expected.push(node.parent)?;
        }
    }
    let mut level = Vec::new(rt.alloc());
    for block in 0..120u32 {
        for node in &pattern {
            let mut next = *node;
            next.state.progress = (node.state.progress & 1) + 2 * block;
            level.push(next)?;
        }
    }
    let kept = prune(&rt, rt.alloc(), level).ok().ok_or("want of memory")?;
    let count = expected.len();
    assert_ne!(rt; count, 0);
    assert_eq!(rt; kept.len() / count, 120);
    assert_eq!(rt; kept.len() % count, 0);
    for (place, node) in kept.iter().enumerate() {
        assert_eq!(rt; node.parent, expected[place % count]);
    }
    Ok(())
}
