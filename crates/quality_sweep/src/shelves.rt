// The states that wait, in the order in which they are looked at.
ghost use Rattle.std.specs.Prelude.{◌≡◌, ◌<◌, ◌≤◌, ℕ, [], IfOk, OnOk, length};
ghost use Rattle.quality_sweep.specs.Places.{place_of, places_of};
ghost use Rattle.quality_sweep.specs.Shelves.{shelf, put_on, cleared};

use crate::candidate::Candidate;
use crate::places::{place_of, places_of};
use action_table::WantMemory;
use craft_settings::Settings;
use std::alloc::Global;
use std::marker::Model;
use std::mem;

/// Candidates, each on the shelf of its place.
#[derive(Drop)]
pub(crate) struct Shelves {
    width: u32,
    lists: Vec<Vec<Candidate>>,
}

impl Model for Shelves {
    ghost use Rattle.std.specs.Prelude.{◌≤◌};
    ghost use Rattle.pareto_front.specs.Lists.{items_of};
    ghost use Rattle.quality_sweep.specs.Shelves.{ShelvesFields};

    ghost Value = { ShelvesFields };

    ghost view = { λ s. record { width = s.width; lists = items_of s.lists.items } };

    ghost invariant = { λ s. 1 ≤ s.width };
}

impl Shelves {
    /// Empty shelves for all states of a craft, in windows of a width.
    pub(crate) fn new(alloc: Global, g: &Settings, width: u32) -> Result<Shelves, WantMemory>
        requires { 1 ≤ width }
        ensures width { IfOk result (λ s. s.width ≡ width) }
        ensures count { IfOk result (λ s. length s.lists ≡ places_of width g.now) }
        ensures empty { IfOk result (λ s. (place : ℕ) → shelf s place ≡ []) }
    {
        let mut lists = Vec::new(alloc);
        for _place in 0..places_of(width, g) {
            lists.push(Vec::new(alloc))?;
        }
        Ok(Shelves { width, lists })
    }

    /// How many shelves there are.
    pub(crate) fn len(&self) -> usize
        ensures { result ≡ length self.now.lists }
    {
        self.lists.len()
    }

    /// Puts a candidate on its shelf.
    pub(crate) fn put(&mut self, c: &Candidate) -> Result<(), WantMemory>
        requires { place_of self.old.width c.now.state < length self.old.lists }
        ensures { OnOk result (self.new ≡ put_on self.old c.now) }
    {
        let place = place_of(self.width, &c.state);
        self.lists[place].push(*c)?;
        Ok(())
    }

    /// Takes all that lies on a shelf.
    pub(crate) fn take(&mut self, place: usize) -> Vec<Candidate>
        requires { place < length self.old.lists }
        ensures taken { result.items ≡ shelf self.old place }
        ensures rest { self.new ≡ cleared self.old place }
    {
        let alloc = *self.lists.allocator();
        mem::replace(&mut self.lists[place], Vec::new(alloc))
    }
}
