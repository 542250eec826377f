// The survivors of each level, listed by their definition: all live legal lists of a length, compared each with each.
ghost use Rattle.std.specs.Prelude.{◌≡◌, IfSome};
ghost use Rattle.step_rules.specs.Legality.{IsWithin};
ghost use Rattle.level_search.specs.Searching.{IsSearcherOf};

use super::*;
use craft_state::State;
use macro_order::seconds;
use quality_bound::limit;
use relaxed_moves::{potential, start_potential};
use std::alloc::AllocError;
use std::test::Fail;
use step_bound::within;
use step_rules::{is_final, replay};
use test_crafts::FOUR_STEPS;

// The greatest quality of the macros of a craft whose best one has four actions.
const TARGET: u32 = 150;

// Ends a list of action numbers.
const END: u8 = 26;

// The state after a list of actions, where it is legal and leaves the craft going.
fn live_after(g: &Settings, actions: &[Action]) -> Option<State>
    ensures { IfSome result (λ s. IsWithin g.now s) }
{
    let Ok(s) = replay(g, &start(g), actions) else {
        return None;
    };
    if is_final(g, &s) { None } else { Some(s) }
}

// A legal list of actions that leaves the craft going, and what it leads to.
#[derive(Drop)]
struct Live {
    actions: Vec<Action>,
    state: State,
    seconds: u32,
}

fn live_of(g: &Settings, actions: Vec<Action>) -> Option<Live> {
    let state = live_after(g, &actions)?;
    if actions.len() > 1000 {
        return None;
    }
    let seconds = seconds(&actions);
    Some(Live {
        actions,
        state,
        seconds,
    })
}

// The live lists of one more action.
fn extended(
    alloc: Global,
    g: &Settings,
    actions: &[Action],
    longer: &mut Vec<Live>,
) -> Result<(), AllocError> {
    for number in 0..Action::COUNT {
        if let Some(action) = Action::from_number(number) {
            let mut more = Vec::new(alloc);
            more.extend_from_slice(actions)?;
            more.push(action)?;
            if let Some(live) = live_of(g, more) {
                longer.push(live)?;
            }
        }
    }
    Ok(())
}

// All live lists of one more action than these, in action order.
fn next_lists(alloc: Global, g: &Settings, lists: &[Live]) -> Result<Vec<Live>, AllocError> {
    let mut longer = Vec::new(alloc);
    for live in lists {
        extended(alloc, g, &live.actions, &mut longer)?;
    }
    Ok(longer)
}

// Whether the first of two lists has the smaller action number where they first differ.
fn is_earlier(first: &[Action], second: &[Action]) -> bool {
    for (a, b) in first.iter().zip(second) {
        if a != b {
            return a.number() < b.number();
        }
    }
    false
}

// Whether the first of two live lists of one length dominates the second.
fn dominates(first: &Live, second: &Live) -> bool {
    let (a, b) = (&first.state, &second.state);
    let same = a.progress == b.progress && a.effects == b.effects;
    let not_less = a.cp >= b.cp && a.durability >= b.durability && a.quality >= b.quality;
    let sooner = first.seconds < second.seconds
        || first.seconds == second.seconds && is_earlier(&first.actions, &second.actions);
    same && not_less && sooner
}

fn is_dominated(lists: &[Live], live: &Live) -> bool {
    for other in lists {
        if dominates(other, live) {
            return true;
        }
    }
    false
}

fn is_enough(most: Option<u32>) -> bool {
    match most {
        None => false,
        Some(most) => most >= TARGET,
    }
}

// The two tables of bounds of a craft.
#[derive(Drop)]
struct Tables<'a> {
    quality: &'a Shared<QualityTruth>,
    steps: &'a Shared<StepTruth>,
    ghost craft: { steps.now.truth.g ≡ quality.now.truth.g },
}

// Whether both limits of a live list reach the target, with so many actions left. Those of the empty list are the cap.
fn reaches(tables: &Tables<'_>, searcher: &mut Searcher, actions: &[Action], left: u32) -> bool
    requires of { IsSearcherOf tables.now.quality.now tables.now.steps.now searcher.old }
    ensures of { IsSearcherOf tables.now.quality.now tables.now.steps.now searcher.new }
{
    let Tables { quality, steps } = *tables;
    let g = &quality.truth().g;
    if actions.is_empty() {
        return is_enough(Some(g.cap()));
    }
    let Some(s) = live_after(g, actions) else {
        return false;
    };
    if potential(g, &s) > start_potential(g) {
        return false;
    }
    is_enough(limit(quality, &mut searcher.quality, &s))
        && is_enough(within(steps, &mut searcher.steps, &s, left))
}

// The action numbers of a list, and the end mark.
fn push_numbers(numbers: &mut Vec<u8>, actions: &[Action]) -> Result<(), AllocError> {
    for action in actions {
        numbers.push(action.number())?;
    }
    numbers.push(END)?;
    Ok(())
}

// Lists those of these lists that survive, given all live lists of the length.
fn push_survivors(
    tables: &Tables<'_>,
    searcher: &mut Searcher,
    lists: &[Live],
    left: u32,
    numbers: &mut Vec<u8>,
) -> Result<(), AllocError>
    requires { IsSearcherOf tables.now.quality.now tables.now.steps.now searcher.old }
{
    for live in lists {
        if reaches(tables, searcher, &live.actions, left) && !is_dominated(lists, live) {
            push_numbers(numbers, &live.actions)?;
        }
    }
    Ok(())
}

// The survivors of a level, given all live lists of its length.
fn survivors(
    alloc: Global,
    g: &Settings,
    lists: &[Live],
    left: u32,
) -> Result<Vec<u8>, WantMemory> {
    let (quality, quality_seat) = Shared::new(alloc, QualityTruth::new(g, 16))?;
    let (steps, steps_seat) = Shared::new(alloc, StepTruth::new(g, 16))?;
    let mut searcher = Searcher {
        quality: quality_seat,
        steps: steps_seat,
    };
    let tables = Tables {
        quality: &quality,
        steps: &steps,
    };
    let mut numbers = Vec::new(alloc);
    push_survivors(&tables, &mut searcher, lists, left, &mut numbers)?;
    Ok(numbers)
}

#[test]
fn lists_the_survivors(rt: HostRuntime) -> Result<(), Fail> {
    let alloc = rt.alloc();
    let rows: [(u32, &[u8]); 4] = [
        (4, &[END]),
        (3, &[0, END, 5, END, 7, END, 8, END]),
        (
            2,
            &[
                0, 8, END, 5, 7, END, 5, 8, END, 7, 1, END, 7, 5, END, 8, 0, END, 8, 1, END, 8, 5,
                END, 8, 6, END,
            ],
        ),
        (1, &[5, 8, 1, END, 8, 1, 5, END, 8, 5, 1, END]),
    ];
    let mut lists = Vec::new(alloc);
    if let Some(empty) = live_of(&FOUR_STEPS, Vec::new(alloc)) {
        lists.push(empty)?;
    }
    for (left, numbers) in &rows {
        let found = survivors(alloc, &FOUR_STEPS, &lists, *left)?;
        assert!(rt; found.as_slice() == *numbers);
        if *left > 1 {
            lists = next_lists(alloc, &FOUR_STEPS, &lists)?;
        }
    }
    Ok(())
}
