ghost use Rattle.std.specs.Prelude.{◌≡◌, ◌≤◌, IfOk, length};
ghost use Rattle.front_walk.specs.Passing.{lets};
ghost use Rattle.craft_settings.specs.Ranges.{IsFromTo};

use super::*;
use crate::expanding::{expand, expand_by};
use crate::walk::Stage;
use craft_settings::Settings;
use craft_state::State;
use pareto_front::PackedNode;
use std::test::Fail;
use step_rules::{counted, is_complete, is_final};
use test_crafts::{EASY, FOUR_STEPS};
use test_lists::{Listed, all_lists, open_after};
use test_parts::Meeting;
use worker_gate::FreeGate;

// Two Groundworks complete it, and it knows touches, Veneration and Innovation beside them.
const GROUND: Settings = Settings {
    level: 100,
    cp: 150,
    durability: 70,
    progress: 200,
    quality: 2000,
    base_progress: 20,
    forbidden: 66977437,
    target: 2000,
    ..EASY
};

// No action gains more progress than 9 times the base value: Groundwork with Veneration and Muscle Memory does.
const MOST_GAIN: u64 = 9;

// Lets all states through, or else those whose progress may be complete after so many actions.
#[derive(Clone, Copy)]
struct Reach {
    settings: Settings,
    all: bool,
}

impl Reach {
    fn lets(&self, left: u32, s: &State) -> bool
        ensures { result ≡ lets self.now.settings self.now.all left s.now }
    {
        let g = &self.settings;
        let most = MOST_GAIN * u64::from(g.base_progress) * u64::from(left);
        self.all || u64::from(g.progress) <= u64::from(s.progress) + most
    }
}

impl StateTest for Reach {
    ghost use Rattle.std.specs.Prelude.{true, ⊤};
    ghost use Rattle.std.proofs.Common.{refl};
    ghost use Rattle.front_walk.specs.Passing.{lets};

    type Asker = ();

    ghost craft = { λ t. t.settings };

    ghost passes = { λ t. lets t.settings t.all };

    ghost allows = { λ _ _. true };

    ghost may_ask = { λ _ _. ⊤ };

    ghost still_asks = { λ _ _. ⊤ };

    fn passes(&self, _asker: &mut (), left: u32, s: &State) -> bool {
        self.lets(left, s)
    }

    ghost goes_on_allowed = { λ _ _ _ _ _ _. refl };

    ghost same_asks = { λ _. tt };

    ghost later_asks = { λ _ _ _ _ _. tt };
}

// So many workers, who ask with nothing.
fn walkers(alloc: Global, count: u32) -> Result<Vec<Walker<()>>, WantMemory>
    ensures { IfOk result (λ all. length all.items ≡ count) }
{
    let mut all = Vec::new(alloc);
    for _turn in 0..count {
        all.push(Walker::new(alloc, ()))?;
    }
    Ok(all)
}

// The most quality that counts of the lists that complete the craft, 0 where none does.
fn greatest(g: &Settings, lists: &[Listed]) -> u32 {
    let mut most = 0;
    for listed in lists {
        if is_complete(g, &listed.state) {
            most = most.max(counted(g, &listed.state));
        }
    }
    most
}

// The place of the first of the lists of the fewest seconds that complete the craft with this quality.
fn soonest_place(g: &Settings, lists: &[Listed], target: u32) -> Option<usize> {
    let mut best: Option<(u32, usize)> = None;
    for (place, listed) in lists.iter().enumerate() {
        if !is_complete(g, &listed.state) || counted(g, &listed.state) != target {
            continue;
        }
        let sooner = match best {
            None => true,
            Some((seconds, _)) => listed.seconds < seconds,
        };
        if sooner {
            best = Some((listed.seconds, place));
        }
    }
    match best {
        None => None,
        Some((_, place)) => Some(place),
    }
}

fn is_not_less(a: &State, b: &State) -> bool {
    a.progress == b.progress
        && a.effects == b.effects
        && a.cp >= b.cp
        && a.durability >= b.durability
        && a.quality >= b.quality
}

// Whether another of the lists of one length, which stand in action order, dominates the one at a place.
fn is_dominated(lists: &[Listed], place: usize, listed: &Listed) -> bool {
    for (k, other) in lists.iter().enumerate() {
        let sooner = other.seconds < listed.seconds || other.seconds == listed.seconds && k < place;
        if sooner && is_not_less(&other.state, &listed.state) {
            return true;
        }
    }
    false
}

// The places of the lists in the front of their length.
fn front(
    alloc: Global,
    test: &Reach,
    lists: &[Listed],
    left: u32,
) -> Result<Vec<usize>, WantMemory> {
    let mut kept = Vec::new(alloc);
    for (place, listed) in lists.iter().enumerate() {
        if !is_final(&test.settings, &listed.state)
            && test.lets(left, &listed.state)
            && !is_dominated(lists, place, listed)
        {
            kept.push(place)?;
        }
    }
    Ok(kept)
}

// Whether these are the sizes of the fronts below a length.
fn are_sizes(
    alloc: Global,
    walk: &Walk<'_, Reach>,
    n: u32,
    sizes: &[u64],
) -> Result<bool, WantMemory> {
    if sizes.len() != n as usize {
        return Ok(false);
    }
    for k in 0..n {
        let lists = all_lists(alloc, walk.g, walk.from, k)?;
        let kept = front(alloc, walk.test, &lists, n - k)?;
        if sizes[k as usize] != kept.len() as u64 {
            return Ok(false);
        }
    }
    Ok(true)
}

// Whether a search answers what a walk over all lists does.
fn agrees(walk: &Walk<'_, Reach>, lists: &[Listed], found: &Option<Completion>) -> bool {
    match (found, soonest_place(walk.g, lists, walk.target)) {
        (None, None) => true,
        (Some(c), Some(place)) => match lists.get(place) {
            Some(first) => c.actions.as_slice() == first.actions.as_slice(),
            None => false,
        },
        _ => false,
    }
}

// What is walked: actions that are done, a test, and how many actions more; with what the walk is to find.
#[derive(Drop)]
struct Case<'a> {
    test: Reach,
    done: &'a [Action],
    n: u32,
    best: Option<&'a [Action]>,
    sizes: &'a [u64],
}

impl Case<'_> {
    fn is_found(&self, found: &Option<Completion>) -> bool {
        match (found, self.best) {
            (None, None) => true,
            (Some(c), Some(best)) => {
                c.actions.as_slice() == best && c.sizes.as_slice() == self.sizes
            }
            _ => false,
        }
    }
}

// Whether so many workers find what they are to find, which is what a walk over all lists finds too.
#[tactic(auto, using(crate::proofs::Passing::lets_limits))]
fn finds<G: Gate>(
    rt: &(impl Threads + Sync),
    alloc: Global,
    gate: &G,
    workers: u32,
    case: &Case<'_>,
) -> Result<bool, WantMemory>
    requires { IsFromTo 1 64 workers }
{
    let (test, n) = (&case.test, case.n);
    let g = &test.settings;
    let Some(from) = open_after(g, case.done) else {
        return Ok(false);
    };
    if n == 0 {
        return Ok(false);
    }
    let lists = all_lists(alloc, g, &from, n)?;
    let walk = Walk {
        g,
        from: &from,
        target: greatest(g, &lists),
        test,
    };
    let mut crew = Crew::new(rt, gate, walkers(alloc, workers)?);
    let found = best_of(&mut crew, alloc, &walk, n)?;
    let counts = sizes(&mut crew, alloc, &walk, n)?;
    Ok(
        case.is_found(&found)
            && agrees(&walk, &lists, &found)
            && counts.as_slice() == case.sizes
            && are_sizes(alloc, &walk, n, &counts)?,
    )
}

// With the test that lets fewer states through the last front is smaller, and the completion the same.
#[test]
fn finds_what_a_plain_walk_does(rt: HostRuntime) -> Result<(), Fail> {
    use Action::*;
    let longer = Settings {
        progress: 250,
        ..GROUND
    };
    let touched: [Action; 4] = [Veneration, StandardTouch, Groundwork, Groundwork];
    let cases: [(Settings, bool, &[Action], u32, Option<&[Action]>, &[u64]); 6] = [
        (
            FOUR_STEPS,
            true,
            &[],
            4,
            Some(&[Veneration, Innovation, BasicTouch, BasicSynthesis]),
            &[1, 7, 36, 80],
        ),
        (
            FOUR_STEPS,
            true,
            &[Veneration],
            4,
            Some(&[BasicTouch, Observe, Observe, BasicSynthesis]),
            &[1, 6, 15, 9],
        ),
        (
            GROUND,
            true,
            &[BasicTouch],
            4,
            Some(&touched),
            &[1, 5, 24, 101],
        ),
        (
            GROUND,
            false,
            &[BasicTouch],
            4,
            Some(&touched),
            &[1, 5, 24, 43],
        ),
        (longer, true, &[Innovation], 3, None, &[1, 5, 24]),
        (longer, false, &[Innovation], 3, None, &[1, 5, 8]),
    ];
    for (settings, all, done, n, best, sizes) in &cases {
        let test = Reach {
            settings: *settings,
            all: *all,
        };
        let case = Case {
            test,
            done: *done,
            n: *n,
            best: *best,
            sizes: *sizes,
        };
        assert!(rt; finds(&rt, rt.alloc(), &FreeGate, 2, &case)?);
    }
    Ok(())
}

#[test]
fn finds_the_same_with_more_workers(rt: HostRuntime) -> Result<(), Fail> {
    use Action::*;
    let case = Case {
        test: Reach {
            settings: GROUND,
            all: false,
        },
        done: &[BasicTouch],
        n: 5,
        best: Some(&[
            Veneration,
            StandardTouch,
            StandardTouch,
            Groundwork,
            Groundwork,
        ]),
        sizes: &[1, 5, 24, 101, 182],
    };
    for workers in [1, 2, 4, 64] {
        assert!(rt; finds(&rt, rt.alloc(), &FreeGate, workers, &case)?);
    }
    let gate = Meeting::new();
    assert!(rt; finds(&rt, rt.alloc(), &gate, 2, &case)?);
    assert!(rt; gate.have_met());
    Ok(())
}

fn are_same(some: &[PackedNode], others: &[PackedNode]) -> bool {
    if some.len() != others.len() {
        return false;
    }
    for (one, other) in some.iter().zip(others) {
        if one.node() != other.node() {
            return false;
        }
    }
    true
}

// How many nodes the last level below a length leads to, if they are the same in slices of so many nodes.
#[tactic(auto, using(crate::proofs::Passing::lets_limits))]
fn expanded_alike(
    rt: &(impl Threads + Sync),
    alloc: Global,
    test: &Reach,
    n: u32,
    span: usize,
) -> Result<Option<usize>, WantMemory>
    requires some { 1 ≤ n }
    requires span { 1 ≤ span }
{
    let g = &test.settings;
    let Some(from) = open_after(g, &[Action::BasicTouch]) else {
        return Ok(None);
    };
    let walk = Walk {
        g,
        from: &from,
        target: 0,
        test,
    };
    let mut crew = Crew::new(rt, &FreeGate, walkers(alloc, 2)?);
    let levels = levels_below(&mut crew, alloc, &walk, n, false)?;
    let stage = Stage {
        walk: &walk,
        left: 1,
        nodes: &levels.last,
    };
    let whole = expand(&mut crew, alloc, &stage)?;
    let sliced = expand_by(&mut crew, alloc, &stage, span)?;
    if are_same(&whole, &sliced) {
        Ok(Some(whole.len()))
    } else {
        Ok(None)
    }
}

// The 24 nodes of two actions more are expanded at once, in twelve slices, and in four, of which the last is shorter.
#[test]
fn expands_alike(rt: HostRuntime) -> Result<(), Fail> {
    let test = Reach {
        settings: GROUND,
        all: true,
    };
    for span in [2, 7] {
        assert_eq!(rt; expanded_alike(&rt, rt.alloc(), &test, 3, span)?, Some(101));
    }
    Ok(())
}
