// The words, the seats, and what each event does.
ghost use Rattle.std.specs.Prelude.{◌≡◌, ℕ, ◌+◌, ◌^◌, ◌<◌, ◌≤◌, [], ◌∷◌, ◌++◌, length, slice_set, take, replicate, slice_index, IfOk, IfSome, MatchOption, MatchResult};
ghost use Rattle.race_core.specs.declared.event.Event.TheVariants.{Load, Put, See, Offer, Split, Join};
ghost use Rattle.race_core.specs.Codes.{code, quality, Fits32};
ghost use Rattle.race_core.specs.Events.{started, after, IsLawful, AreLawful, after_all, live_at, fresh, gone, set_view, set_word, new_view, floor_at, filling};
ghost use Rattle.race_core.specs.Sound.{Sound, IsSound, Steady, SteadyAlong};
ghost use Rattle.race_core.specs.Seats.{seat_view};

use crate::seat::SeatState;
use crate::{Entry, Event, Truth, quality_of_mark};
use action_table::WantMemory;
use std::alloc::Global;
use std::marker::Model;

/// The words of a table and its seats, to which events happen one after another.
///
/// The mark stands at place 0: 0, or 1 + the greatest quality that was offered. The word of index i stands at place i
/// + 1: 0 while it is empty, else the truth's entry.
#[derive(Drop)]
pub struct Core<T: Truth> {
    truth: T,
    words: Vec<u64>,
    seats: Vec<Option<SeatState>>,
}

impl<T: Truth> Model for Core<T> {
    ghost use Rattle.race_core.specs.Events.{CoreFields};
    ghost use Rattle.race_core.specs.Sound.{Sound};
    ghost use Rattle.race_core.specs.Seats.{views_of};

    ghost Value = { CoreFields T };

    ghost view = { λ c. record { truth = c.truth; words = c.words.items; views = views_of c.truth c.seats.items } };

    ghost invariant = { λ c. Sound T.size T.entry T.reached c.truth c.words.items (views_of c.truth c.seats.items) };
}

impl<T: Truth> Core<T> {
    /// A core with empty words and one seat, number 0, that has made no step.
    pub fn start(alloc: Global, truth: T) -> Result<Core<T>, WantMemory>
        ensures value { IfOk result (λ core. core ≡ started T.size truth) }
        ensures sound { IsSound T.size T.entry T.reached (started T.size truth) }
    {
        let words = vec![in alloc; 0u64; truth.size() + 1]?;
        let mut seats = Vec::new(alloc);
        seats.push(Some(SeatState::new(alloc)))?;
        Ok(Core {
            truth,
            words,
            seats,
        })
    }

    /// The word of a place, which is at most the truth's size: the mark at 0, the word of index i at i + 1.
    pub fn word(&self, place: usize) -> u64
        requires { place ≤ T.size self.now.truth }
        ensures { result ≡ slice_index self.now.words place }
    {
        self.words[place]
    }

    // A seat that is there, and was not joined away.
    fn live(&self, seat: usize) -> Option<&SeatState>
        ensures { MatchOption result (live_at self.now.views seat ≡ None) (λ state.
            live_at self.now.views seat ≡ Some (seat_view self.now.truth state.now)) }
    {
        if seat >= self.seats.len() {
            return None;
        }
        match &self.seats[seat] {
            Some(state) => Some(state),
            None => None,
        }
    }

    // One seat has another state.
    fn settle(&mut self, seat: usize, state: SeatState)
        requires there { seat < length self.old.views }
        requires sound { Sound T.size T.entry T.reached self.old.truth self.old.words
            (slice_set self.old.views seat (seat_view self.old.truth state)) }
        ensures { self.new ≡ set_view seat (seat_view self.old.truth state) self.old }
    {
        self.seats[seat] = Some(state);
    }

    // The same, and one word has another value.
    fn settle_word(&mut self, at: usize, word: u64, seat: usize, state: SeatState)
        requires inside { at < length self.old.words }
        requires there { seat < length self.old.views }
        requires sound { Sound T.size T.entry T.reached self.old.truth (slice_set self.old.words at word)
            (slice_set self.old.views seat (seat_view self.old.truth state)) }
        ensures { self.new ≡ set_view seat (seat_view self.old.truth state) (set_word at word self.old) }
    {
        self.words[at] = word;
        self.seats[seat] = Some(state);
    }

    // One seat is joined away.
    fn retire(&mut self, seat: usize)
        requires { seat < length self.old.views }
        ensures { self.new ≡ set_view seat gone self.old }
    {
        self.seats[seat] = None;
    }

    // A new seat comes, with the next number.
    fn enter(&mut self, state: SeatState) -> Result<(), WantMemory>
        requires { Sound T.size T.entry T.reached self.old.truth self.old.words (self.old.views ++ seat_view self.old.truth state ∷ []) }
        ensures { MatchResult result (λ _. self.new ≡ new_view (seat_view self.old.truth state) self.old) (λ _. self.new ≡ self.old) }
    {
        self.seats.push(Some(state))?;
        Ok(())
    }

    fn load(&mut self, seat: usize, index: usize) -> Result<(), WantMemory>
        ensures { MatchResult result (λ _. self.new ≡ after T.size self.old (Load seat index)) (λ _. self.new ≡ self.old) }
    {
        if index >= self.truth.size() {
            return Ok(());
        }
        let word = self.words[index + 1];
        let Some(state) = self.live(seat) else {
            return Ok(());
        };
        let state = state.copy()?.with_found(index, word)?;
        let state = state.note(index + 1, word)?;
        self.settle(seat, state);
        Ok(())
    }

    fn put(&mut self, seat: usize, index: usize, entry: Entry) -> Result<(), WantMemory>
        requires { IsLawful T.size T.entry T.reached self.old.truth (Put seat index entry) }
        ensures { MatchResult result (λ _. self.new ≡ after T.size self.old (Put seat index entry)) (λ _. self.new ≡ self.old) }
    {
        if index >= self.truth.size() {
            return Ok(());
        }
        let word = self.words[index + 1];
        let Some(state) = self.live(seat) else {
            return Ok(());
        };
        let state = state.copy()?.with_index(index)?;
        let state = state.note(index + 1, word)?;
        let new = filled_word(word, entry.to_word());
        self.settle_word(index + 1, new, seat, state);
        Ok(())
    }

    fn see(&mut self, seat: usize) -> Result<(), WantMemory>
        ensures { MatchResult result (λ _. self.new ≡ after T.size self.old (See seat)) (λ _. self.new ≡ self.old) }
    {
        let mark = self.words[0];
        let Some(state) = self.live(seat) else {
            return Ok(());
        };
        let state = state.copy()?.note(0, mark)?;
        let floor = floor_after(mark, state.floor());
        self.settle(seat, state.with_floor(floor));
        Ok(())
    }

    fn offer(&mut self, seat: usize, quality: u32) -> Result<(), WantMemory>
        requires { T.reached self.old.truth quality }
        ensures { MatchResult result (λ _. self.new ≡ after T.size self.old (Offer seat quality)) (λ _. self.new ≡ self.old) }
    {
        let mark = self.words[0];
        let Some(state) = self.live(seat) else {
            return Ok(());
        };
        let state = state.copy()?.note(0, mark)?;
        let new = mark.max(1 + u64::from(quality));
        self.settle_word(0, new, seat, state.with_floor(quality_of_mark(new)));
        Ok(())
    }

    fn split(&mut self, seat: usize) -> Result<(), WantMemory>
        ensures { MatchResult result (λ _. self.new ≡ after T.size self.old (Split seat)) (λ _. self.new ≡ self.old) }
    {
        let mark = self.words[0];
        let Some(state) = self.live(seat) else {
            return Ok(());
        };
        let state = state.copy()?.note(0, mark)?;
        let state = state.with_floor(quality_of_mark(mark));
        let other = state.copy()?;
        self.enter(other)?;
        self.settle(seat, state);
        Ok(())
    }

    fn join(&mut self, into: usize, from: usize) -> Result<(), WantMemory>
        ensures { MatchResult result (λ _. self.new ≡ after T.size self.old (Join into from)) (λ _. self.new ≡ self.old) }
    {
        if into == from {
            return Ok(());
        }
        let mark = self.words[0];
        let Some(state) = self.live(into) else {
            return Ok(());
        };
        let Some(other) = self.live(from) else {
            return Ok(());
        };
        let state = state.copy()?.with_all(other)?;
        let state = state.note(0, mark)?;
        self.settle(into, state.with_floor(quality_of_mark(mark)));
        self.retire(from);
        Ok(())
    }

    /// One event happens. A put of an index has the truth's entry, and an offer's quality is reached.
    ///
    /// An event that names a seat that isn't there or was joined away, an index not below the size, or twice the same
    /// seat in a join changes nothing. Refused for memory it changes nothing either.
    pub fn play(&mut self, event: Event) -> Result<(), WantMemory>
        requires { IsLawful T.size T.entry T.reached self.old.truth event }
        ensures done { MatchResult result (λ _. self.new ≡ after T.size self.old event) (λ _. self.new ≡ self.old) }
        ensures steady { Steady T.size T.entry T.reached self.old (after T.size self.old event) }
    {
        let _ = &self.truth;
        match event {
            Event::Load { seat, index } => self.load(seat, index),
            Event::Put { seat, index, entry } => self.put(seat, index, entry),
            Event::See { seat } => self.see(seat),
            Event::Offer { seat, quality } => self.offer(seat, quality),
            Event::Split { seat } => self.split(seat),
            Event::Join { into, from } => self.join(into, from),
        }
    }

    /// The events happen one after another, each lawful as for `play`. Refused for memory a prefix of them has happened.
    pub fn run(&mut self, events: &[Event]) -> Result<(), WantMemory>
        requires { AreLawful T.size T.entry T.reached self.old.truth events.now }
        ensures done { MatchResult result (λ _. self.new ≡ after_all T.size self.old events.now) (λ _. (n : ℕ) × (n ≤ length events.now) ×
            (self.new ≡ after_all T.size self.old (take n events.now))) }
        ensures steady { SteadyAlong T.size T.entry T.reached self.old events.now }
    {
        let _ = &self.truth;
        for event in events {
            self.play(*event)?;
        }
        Ok(())
    }
}

// The floor after a look at the mark.
fn floor_after(mark: u64, floor: Option<u32>) -> Option<u32>
    requires { mark < 2 ^ 32 + 1 }
    ensures { result ≡ floor_at mark floor }
{
    if mark == 0 {
        floor
    } else {
        quality_of_mark(mark)
    }
}

// A put fills a word that is empty.
fn filled_word(word: u64, new: u64) -> u64
    ensures { result ≡ filling new word }
{
    if word == 0 { new } else { word }
}
