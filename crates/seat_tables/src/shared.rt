// The table and its seats.
use crate::plays::Ruled;
use atomic_table::Table;
use race_core::{Truth, View};
use std::alloc::Global;
use std::marker::Model;

/// A table of words that threads share: the mark, and for each index a word that is empty or says the truth's entry.
#[derive(Drop)]
pub struct Shared<T: Truth> {
    pub(crate) table: Table<(), View<T>, T, Ruled<T>, Global>,
    pub(crate) truth: T,
}

impl<T: Truth> Model for Shared<T> {
    ghost use Rattle.std.specs.Prelude.{◌≡◌, ◌+◌};
    ghost use Rattle.seat_tables.specs.Seats.{SharedFields};

    ghost Value = { SharedFields T };

    ghost view = { λ s. record { truth = s.truth; id = s.table.shared.table_id } };

    ghost invariant = { λ s. (s.table.shared.key ≡ s.truth) × (s.table.shared.table_id.words ≡ T.size s.truth + 1) ×
        (s.table.shared.table_id.slots ≡ 0) };
}

/// A token for the steps of one thread. Contracts see it as its view: what its thread knows of the table.
#[derive(Drop)]
pub struct Seat<T: Truth> {
    pub(crate) token: atomic_table::Seat<(), View<T>>,
    // A seat has a size, so that a slice of seats can be handed on.
    pub(crate) number: u32,
}

impl<T: Truth> Model for Seat<T> {
    ghost use Rattle.std.specs.Prelude.{◌≡◌, []};
    ghost use Rattle.seat_tables.specs.Seats.{SeatFields};

    ghost Value = { SeatFields T };

    ghost view = { λ s. record { id = s.token.table_id; view = s.token.me.0 } };

    ghost invariant = { λ s. s.token.me.1 ≡ [] };
}

fn shares<X: Send + Sync>(x: &X) {
    let _ = x;
}

fn sends<X: Send>(x: &X) {
    let _ = x;
}

// Any thread may use a table, and a seat may go to any thread, whatever the truth is.
pub(crate) fn may_cross<T: Truth>(table: &Shared<T>, seat: &Seat<T>) {
    shares(table);
    sends(seat);
}
