// The calls on a table. Each call with a seat but `close` makes one step, which the seat's view notes.
ghost use Rattle.std.specs.Prelude.{◌≡◌, ◌↔◌, ℕ, ◌+◌, ◌<◌, ◌≤◌, [], ◌∷◌, length, max, slice_index, Some, None, Contains, IsSome, IfSome, IfOk};
ghost use Rattle.race_core.specs.Codes.{code};
ghost use Rattle.race_core.specs.Events.{loaded, filled, looked, offered, parted, merged, fresh};
ghost use Rattle.race_core.specs.Sound.{Sound, IsFilled};
ghost use Rattle.seat_tables.specs.Seats.{IsOf, OneStep, AtLeast, StillSees, WithAllSound};

use crate::closed::Closed;
use crate::plays::{Glue, Halves, Loads, Looks, Offers, Parts, Puts};
use crate::shared::{Seat, Shared};
use action_table::WantMemory;
use atomic_table::Table;
use race_core::{Entry, Truth, quality_of_mark};
use std::alloc::Global;

impl<T: Truth> Shared<T> {
    /// A table of empty words, and its first seat, which has made no step.
    pub fn new(alloc: Global, truth: T) -> Result<(Shared<T>, Seat<T>), WantMemory>
        ensures { IfOk result (λ made. (made.0.truth ≡ truth) × IsOf made.0 made.1 × (made.1.view ≡ fresh truth)) }
    {
        let words = vec![in alloc; 0u64; truth.size() + 1]?;
        let (table, token) = Table::of_words(alloc, words.as_slice(), &truth)?;
        Ok((Shared { table, truth }, Seat { token, number: 0 }))
    }

    /// The truth that the table was made with.
    pub fn truth(&self) -> T
        ensures { result ≡ self.now.truth }
    {
        self.truth
    }

    /// Reads the word of an index, which is below the truth's size: the truth's entry, or None exactly where the word
    /// is still empty. Never None where the seat has seen the index.
    pub fn load(&self, seat: &mut Seat<T>, index: usize) -> Option<Entry>
        requires of { IsOf self.now seat.old }
        requires inside { index < T.size self.now.truth }
        ensures of { IsOf self.now seat.new }
        ensures step { OneStep (index + 1) (loaded index) seat.old.view seat.new.view }
        ensures empty { (result ≡ None) ↔ (seat.new.view.last ≡ Some (index + 1, 0)) }
        ensures word { IfSome result (λ entry. seat.new.view.last ≡ Some (index + 1, code entry)) }
        ensures seen { IfSome result (λ entry. (entry ≡ T.entry self.now.truth index) × Contains seat.new.view.seen index) }
        ensures kept { Contains seat.old.view.seen index → IsSome result }
        ensures still { StillSees seat.old.view seat.new.view }
        ensures floor { seat.new.view.floor ≡ seat.old.view.floor }
    {
        let steps = &self.table.shared;
        let word = steps.load::<Loads<T>>(&mut seat.token, index + 1);
        Entry::from_word(word)
    }

    /// Fills the word of an index, which is below the truth's size, with the truth's entry, where it is still empty.
    /// The seat has then seen the index: as long as the words are sound, its word says the entry.
    pub fn put(&self, seat: &mut Seat<T>, index: usize, entry: Entry)
        requires of { IsOf self.now seat.old }
        requires inside { index < T.size self.now.truth }
        requires entry { entry ≡ T.entry self.now.truth index }
        ensures of { IsOf self.now seat.new }
        ensures step { OneStep (index + 1) (filled index) seat.old.view seat.new.view }
        ensures word { WithAllSound T.size T.entry T.reached self.now.truth seat.new.view (λ words.
            slice_index words (index + 1) ≡ code entry) }
        ensures seen { Contains seat.new.view.seen index }
        ensures still { StillSees seat.old.view seat.new.view }
        ensures floor { seat.new.view.floor ≡ seat.old.view.floor }
    {
        let new = entry.to_word();
        let steps = &self.table.shared;
        steps.compare_exchange::<Puts<T>>(&mut seat.token, index + 1, 0, new);
    }

    /// Reads the mark: the greatest quality offered so far, which becomes the seat's floor, or None exactly where
    /// nothing was offered. Never below the seat's old floor.
    pub fn see(&self, seat: &mut Seat<T>) -> Option<u32>
        requires { IsOf self.now seat.old }
        ensures of { IsOf self.now seat.new }
        ensures step { OneStep 0 looked seat.old.view seat.new.view }
        ensures empty { (result ≡ None) ↔ (seat.new.view.last ≡ Some (0, 0)) }
        ensures word { IfSome result (λ q. seat.new.view.last ≡ Some (0, 1 + q)) }
        ensures reached { IfSome result (T.reached self.now.truth) }
        ensures kept { AtLeast result seat.old.view.floor }
        ensures floor { seat.new.view.floor ≡ result }
        ensures still { StillSees seat.old.view seat.new.view }
    {
        let steps = &self.table.shared;
        let mark = steps.load::<Looks<T>>(&mut seat.token, 0);
        quality_of_mark(mark)
    }

    /// Raises the mark to a reached quality, where it is lower. The seat's floor is then the mark's quality: as long
    /// as the words are sound, the mark is at least the greater of the two.
    pub fn offer(&self, seat: &mut Seat<T>, quality: u32)
        requires of { IsOf self.now seat.old }
        requires reached { T.reached self.now.truth quality }
        ensures of { IsOf self.now seat.new }
        ensures step { OneStep 0 (offered (1 + quality)) seat.old.view seat.new.view }
        ensures mark { (found : ℕ) → seat.new.view.last ≡ Some (0, found) →
            WithAllSound T.size T.entry T.reached self.now.truth seat.new.view (λ words. max found (1 + quality) ≤ slice_index words 0) }
        ensures floor { (q : ℕ) × (seat.new.view.floor ≡ Some q) × T.reached self.now.truth q × (quality ≤ q) }
        ensures kept { AtLeast seat.new.view.floor seat.old.view.floor }
        ensures still { StillSees seat.old.view seat.new.view }
    {
        let mark = 1 + u64::from(quality);
        let steps = &self.table.shared;
        steps.fetch_max::<Offers<T>>(&mut seat.token, 0, mark);
    }

    /// A new seat that has seen the same indices. The floor of both becomes the mark's quality.
    pub fn split(&self, seat: &mut Seat<T>) -> Seat<T>
        requires { IsOf self.now seat.old }
        ensures of { IsOf self.now seat.new × IsOf self.now result }
        ensures step { OneStep 0 parted seat.old.view seat.new.view }
        ensures same { result.view ≡ seat.new.view }
        ensures reached { IfSome seat.new.view.floor (T.reached self.now.truth) }
        ensures kept { AtLeast seat.new.view.floor seat.old.view.floor }
        ensures still { StillSees seat.old.view seat.new.view × StillSees seat.old.view result.view }
    {
        let steps = &self.table.shared;
        steps.load::<Parts<T>>(&mut seat.token, 0);
        let token = steps.split_seat::<Halves>(&mut seat.token);
        Seat { token, number: 0 }
    }

    /// Takes the second seat in: the first has then seen what both had seen, and its floor is the mark's quality.
    pub fn join(&self, into: &mut Seat<T>, from: Seat<T>)
        requires into { IsOf self.now into.old }
        requires from { IsOf self.now from }
        ensures of { IsOf self.now into.new }
        ensures step { OneStep 0 (λ found view. merged found view from.view) into.old.view into.new.view }
        ensures reached { IfSome into.new.view.floor (T.reached self.now.truth) }
        ensures kept { AtLeast into.new.view.floor into.old.view.floor × AtLeast into.new.view.floor from.view.floor }
        ensures still { StillSees into.old.view into.new.view × StillSees from.view into.new.view }
    {
        let steps = &self.table.shared;
        let Seat { token, number: _ } = from;
        steps.join_seat::<Glue>(&mut into.token, token);
        steps.load::<Parts<T>>(&mut into.token, 0);
    }

    /// Ends the table: its words, in which each index that the seat has seen is filled.
    pub fn close(self, seat: Seat<T>) -> Closed
        requires { IsOf self seat }
        ensures sound { Sound T.size T.entry T.reached self.truth result (seat.view ∷ []) }
        ensures seen { (index : ℕ) → Contains seat.view.seen index → IsFilled result index }
    {
        let Shared { table, truth: _ } = self;
        let Seat { token, number: _ } = seat;
        Closed {
            rows: table.close_with(token),
        }
    }
}

impl Closed {
    /// The word of a place, which is below the number of words: the mark at 0, the word of index i at i + 1.
    pub fn word(&self, place: usize) -> u64
        requires { place < length self.now }
        ensures { result ≡ slice_index self.now place }
    {
        self.rows.word(place)
    }
}
