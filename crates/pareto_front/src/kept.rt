ghost use Rattle.std.specs.Prelude.{◌≡◌, ◌++◌, ◌∷◌, [], ◌<◌, ◌==◌, not, length, if◌then◌else◌, IfOk, OnOk, OnErr, List, slice_index_or, slice_set};
ghost use Rattle.std.specs.List.{position_or_len};
ghost use Rattle.craft_state.specs.Craft.{StateFields};
ghost use Rattle.pareto_front.specs.Lists.{items_of};
ghost use Rattle.pareto_front.specs.Kept.{is_covered, AreIndexed};

use crate::key::key_of;
use crate::numbers::{Numbers, is_reached};
use action_table::WantMemory;
use craft_state::State;
use indexmap::IndexSet;
use std::alloc::Global;
use std::marker::Model;

/// States that are kept where no kept state covers them, in the order in which they were kept. A
/// state covers another where progress and effects are equal and its CP, durability and quality are
/// not less.
#[derive(Drop)]
pub struct Kept {
    states: Vec<State>,
    // The keys of the kept states, and at the place of each the numbers of its states.
    keys: IndexSet<u64>,
    groups: Vec<Vec<Numbers>>,
}

impl Model for Kept {
    ghost use Rattle.std.specs.Prelude.{List};
    ghost use Rattle.craft_state.specs.Craft.{StateFields};
    ghost use Rattle.pareto_front.specs.Lists.{items_of};
    ghost use Rattle.pareto_front.specs.Kept.{AreIndexed};

    ghost Value = { List StateFields };

    ghost view = { λ k. k.states.items };

    ghost invariant = { λ k. AreIndexed k.states.items k.keys.keys (items_of k.groups.items) };
}

impl Kept {
    /// No state is kept. It takes no memory.
    pub fn new(alloc: Global) -> Kept
        ensures { result ≡ [] }
    {
        Kept {
            states: Vec::new(alloc),
            keys: IndexSet::new(alloc),
            groups: Vec::new(alloc),
        }
    }

    /// How many states are kept.
    pub fn len(&self) -> usize
        ensures { result ≡ length self.now }
    {
        self.states.len()
    }

    /// The state that was kept at a place, counted from 0. The place is below the number of kept
    /// states.
    pub fn at(&self, place: usize) -> State
        requires { place < length self.now }
        ensures { result ≡ slice_index_or self.now place result }
    {
        self.states[place]
    }

    /// Keeps a state unless a kept state covers it, and answers whether it was kept. Refused for
    /// memory it leaves the kept states as they were.
    pub fn offer(&mut self, s: &State) -> Result<bool, WantMemory>
        ensures answer { IfOk result (λ fresh. fresh ≡ not (is_covered self.old s.now)) }
        ensures kept { IfOk result (λ fresh. self.new ≡ (if fresh then self.old ++ s.now ∷ [] else self.old)) }
        ensures refused { OnErr result (self.new ≡ self.old) }
    {
        offer_to(&mut self.states, &mut self.keys, &mut self.groups, s)
    }
}

// The same, of the parts of what is kept.
fn offer_to(
    states: &mut Vec<State>,
    keys: &mut IndexSet<u64>,
    groups: &mut Vec<Vec<Numbers>>,
    s: &State,
) -> Result<bool, WantMemory>
    requires { AreIndexed states.old.items keys.old.keys (items_of groups.old.items) }
    ensures indexed { AreIndexed states.new.items keys.new.keys (items_of groups.new.items) }
    ensures answer { IfOk result (λ fresh. fresh ≡ not (is_covered states.old.items s.now)) }
    ensures kept { IfOk result (λ fresh. states.new.items ≡ (if fresh then states.old.items ++ s.now ∷ [] else states.old.items)) }
    ensures refused { OnErr result (states.new.items ≡ states.old.items) }
{
    let key = key_of(s);
    let index = find_or_add(keys, groups, key)?;
    let numbers = Numbers::of(s);
    if is_reached(&groups[index], numbers) {
        return Ok(false);
    }
    states.try_reserve(1)?;
    push_to(groups, index, numbers)?;
    states.push_reserved(*s);
    Ok(true)
}

// The place of a key. A new key gets an empty group.
fn find_or_add(
    keys: &mut IndexSet<u64>,
    groups: &mut Vec<Vec<Numbers>>,
    key: u64,
) -> Result<usize, WantMemory>
    requires { length (items_of groups.old.items) ≡ length keys.old.keys }
    ensures indexed { (states : List StateFields) → AreIndexed states keys.old.keys (items_of groups.old.items) →
        AreIndexed states keys.new.keys (items_of groups.new.items) }
    ensures inside { IfOk result (λ index. index < length groups.new.items) }
    ensures at { IfOk result (λ index. index ≡ position_or_len (λ k. key == k) keys.new.keys) }
{
    groups.try_reserve(1)?;
    let (index, added) = keys.insert_full(key)?;
    if added {
        let alloc = *groups.allocator();
        groups.push_reserved(Vec::new(alloc));
    }
    Ok(index)
}

// Appends to a group.
fn push_to(groups: &mut Vec<Vec<Numbers>>, index: usize, numbers: Numbers) -> Result<(), WantMemory>
    requires { index < length groups.old.items }
    ensures pushed { OnOk result (items_of groups.new.items ≡ slice_set (items_of groups.old.items) index
        (slice_index_or (items_of groups.old.items) index [] ++ numbers ∷ [])) }
    ensures refused { OnErr result (items_of groups.new.items ≡ items_of groups.old.items) }
{
    groups[index].push(numbers)?;
    Ok(())
}
