ghost use Rattle.std.specs.Prelude.{◌≡◌, ◌≢◌, ◌<◌};
ghost use Rattle.seat_tables.specs.Seats.{IsOf};

use crate::{Seat, Shared};
use race_core::{Entry, Truth};
use std::sync::Wait;
use std::test::Fail;
use std::thread;
use std::thread::Threads;

#[derive(Clone, Copy)]
struct Three;

impl Truth for Three {
    ghost use Rattle.std.specs.Prelude.{◌≤◌};
    ghost use Rattle.std.proofs.Common.{arith};
    ghost use Rattle.race_core.specs.Samples.{three_entry, three_fits};

    ghost size = { λ _. 3 };

    ghost entry = { λ _ index. three_entry index };

    ghost reached = { λ _ quality. quality ≤ 100 };

    fn size(&self) -> usize {
        3
    }

    ghost size_fits = { λ _. Prim.omega arith };

    ghost entry_fits = { λ _ index _. three_fits index };

    ghost reached_fits = { λ _ _ low. Prim.omega arith };
}

// Two rows of 1100 indices, of which the second has no list.
#[derive(Clone, Copy)]
struct TwoRows;

impl Truth for TwoRows {
    ghost use Rattle.std.specs.Prelude.{◌≤◌};
    ghost use Rattle.std.proofs.Common.{arith};
    ghost use Rattle.race_core.specs.Samples.{row_entry, row_fits};

    ghost size = { λ _. 2200 };

    ghost entry = { λ _ index. row_entry index };

    ghost reached = { λ _ quality. quality ≤ 100 };

    fn size(&self) -> usize {
        2200
    }

    ghost size_fits = { λ _. Prim.omega arith };

    ghost entry_fits = { λ _ index _. row_fits index };

    ghost reached_fits = { λ _ _ low. Prim.omega arith };
}

#[test]
fn seven_calls(rt: HostRuntime) -> Result<(), Fail> {
    let (table, mut first) = Shared::new(rt.alloc(), Three)?;
    assert_eq!(rt; table.truth().size(), 3);
    assert_eq!(rt; table.load(&mut first, 1), None);
    table.put(&mut first, 1, Entry::Best(0));
    table.offer(&mut first, 5);
    let mut second = table.split(&mut first);
    assert_eq!(rt; table.see(&mut second), Some(5));
    table.put(&mut second, 0, Entry::NoList);
    table.join(&mut first, second);
    let closed = table.close(first);
    assert_eq!(rt; closed.word(0), 6);
    assert_eq!(rt; closed.word(1), 1);
    assert_eq!(rt; closed.word(2), 2);
    assert_eq!(rt; closed.word(3), 0);
    Ok(())
}

#[test]
fn a_seat_finds_what_another_put(rt: HostRuntime) -> Result<(), Fail> {
    let (table, mut a) = Shared::new(rt.alloc(), TwoRows)?;
    let mut b = table.split(&mut a);
    assert_eq!(rt; table.load(&mut b, 7), None);
    table.put(&mut a, 7, Entry::Best(0));
    assert_eq!(rt; table.load(&mut b, 7), Some(Entry::Best(0)));
    table.join(&mut a, b);
    assert_eq!(rt; table.load(&mut a, 7), Some(Entry::Best(0)));
    table.put(&mut a, 7, Entry::Best(0));
    table.put(&mut a, 1100, Entry::NoList);
    assert_eq!(rt; table.load(&mut a, 1100), Some(Entry::NoList));
    let closed = table.close(a);
    assert_eq!(rt; closed.word(8), 2);
    assert_eq!(rt; closed.word(1101), 1);
    Ok(())
}

#[test]
fn a_seat_sees_what_another_offered(rt: HostRuntime) -> Result<(), Fail> {
    let (table, mut a) = Shared::new(rt.alloc(), TwoRows)?;
    let mut b = table.split(&mut a);
    assert_eq!(rt; table.see(&mut a), None);
    table.offer(&mut a, 100);
    assert_eq!(rt; table.see(&mut b), Some(100));
    table.offer(&mut a, 0);
    assert_eq!(rt; table.see(&mut a), Some(100));
    Ok(())
}

// For every truth: an entry that a seat put is found by a seat split from it, and by one that takes that seat in, and stands there at the end.
fn put_and_find<T: Truth>(table: Shared<T>, mut first: Seat<T>, index: usize, entry: Entry) -> u64
    requires of { IsOf table first }
    requires inside { index < T.size table.truth }
    requires entry { entry ≡ T.entry table.truth index }
    ensures { result ≢ 0 }
{
    let mut second = table.split(&mut first);
    table.put(&mut second, index, entry);
    let mut third = table.split(&mut second);
    table.load(&mut third, index).unwrap();
    table.join(&mut first, third);
    table.load(&mut first, index).unwrap();
    table.close(first).word(index + 1)
}

#[test]
fn an_entry_stays(rt: HostRuntime) -> Result<(), Fail> {
    let (table, first) = Shared::new(rt.alloc(), TwoRows)?;
    assert_eq!(rt; put_and_find(table, first, 7, Entry::Best(0)), 2);
    Ok(())
}

fn fill(table: &Shared<Three>, mut seat: Seat<Three>)
    requires { IsOf table.now seat }
{
    table.put(&mut seat, 0, Entry::NoList);
    table.put(&mut seat, 1, Entry::Best(0));
    table.put(&mut seat, 2, Entry::Best(5));
}

fn fill_by_two<R: Threads + Wait>(rt: &R, table: &Shared<Three>, a: Seat<Three>, b: Seat<Three>)
    requires { IsOf table.now a × IsOf table.now b }
{
    thread::scope(
        thread::scope_env(),
        rt,
        move |scope| -> ()
            requires { IsOf table.now a × IsOf table.now b }
        {
            let one = scope.spawn(
                move ||
                    requires { IsOf table.now a }
                { fill(table, a) },
            );
            if let Err(refused) = one {
                (refused.value)();
            }
            let two = scope.spawn(
                move ||
                    requires { IsOf table.now b }
                { fill(table, b) },
            );
            if let Err(refused) = two {
                (refused.value)();
            }
        },
    );
}

#[test]
fn two_threads_fill_the_same_words(rt: HostRuntime) -> Result<(), Fail> {
    let (table, mut first) = Shared::new(rt.alloc(), Three)?;
    let a = table.split(&mut first);
    let b = table.split(&mut first);
    fill_by_two(&rt, &table, a, b);
    let closed = table.close(first);
    assert_eq!(rt; closed.word(1), 1);
    assert_eq!(rt; closed.word(2), 2);
    assert_eq!(rt; closed.word(3), 7);
    Ok(())
}
