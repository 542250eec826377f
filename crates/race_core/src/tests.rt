ghost use Rattle.std.specs.Prelude.{◌≡◌, ◌∷◌, [], IfOk, Some, None, false};
ghost use Rattle.race_core.specs.Events.{started, live_at};

use crate::{Core, Entry, Event, Truth, quality_of_mark};
use action_table::WantMemory;
use std::test::Fail;

#[derive(Clone, Copy)]
struct Three;

impl Truth for Three {
    ghost use Rattle.std.specs.Prelude.{◌≤◌};
    ghost use Rattle.std.proofs.Common.{arith};
    ghost use Rattle.race_core.specs.Samples.{three_entry, three_fits};

    ghost size = { λ _. 3 };

    ghost entry = { λ _ index. three_entry index };

    ghost reached = { λ _ quality. quality ≤ 100 };

    fn size(&self) -> usize {
        3
    }

    ghost size_fits = { λ _. Prim.omega arith };

    ghost entry_fits = { λ _ index _. three_fits index };

    ghost reached_fits = { λ _ _ low. Prim.omega arith };
}

// Two rows of 1100 indices, of which the second has no list.
#[derive(Clone, Copy)]
struct TwoRows;

impl Truth for TwoRows {
    ghost use Rattle.std.specs.Prelude.{◌≤◌};
    ghost use Rattle.std.proofs.Common.{arith};
    ghost use Rattle.race_core.specs.Samples.{row_entry, row_fits};

    ghost size = { λ _. 2200 };

    ghost entry = { λ _ index. row_entry index };

    ghost reached = { λ _ quality. quality ≤ 100 };

    fn size(&self) -> usize {
        2200
    }

    ghost size_fits = { λ _. Prim.omega arith };

    ghost entry_fits = { λ _ index _. row_fits index };

    ghost reached_fits = { λ _ _ low. Prim.omega arith };
}

// Seat 0 has then seen 0 and 1, and its floor is 5.
fn seven_events(core: &mut Core<Three>) -> Result<(), WantMemory>
    requires { core.old ≡ started (λ _. 3) core.old.truth }
    ensures words { IfOk result (λ _. core.new.words ≡ 6 ∷ 1 ∷ 2 ∷ 0 ∷ []) }
    ensures seat { IfOk result (λ _. live_at core.new.views 0 ≡ Some record {
      truth = Some core.old.truth;
      seen = 1 ∷ 1 ∷ 0 ∷ [];
      floor = Some 5;
      joined = false;
      steps = 5;
      last = Some (0, 6);
    }) }
{
    core.run(&[
        Event::Load { seat: 0, index: 1 },
        Event::Put {
            seat: 0,
            index: 1,
            entry: Entry::Best(0),
        },
        Event::Offer {
            seat: 0,
            quality: 5,
        },
        Event::Split { seat: 0 },
        Event::See { seat: 1 },
        Event::Put {
            seat: 1,
            index: 0,
            entry: Entry::NoList,
        },
        Event::Join { into: 0, from: 1 },
    ])
}

#[test]
fn words_after_seven_events(rt: HostRuntime) -> Result<(), Fail> {
    let mut core = Core::start(rt.alloc(), Three)?;
    assert_eq!(rt; core.word(0), 0);
    seven_events(&mut core)?;
    assert_eq!(rt; core.word(0), 6);
    assert_eq!(rt; core.word(1), 1);
    assert_eq!(rt; core.word(2), 2);
    assert_eq!(rt; core.word(3), 0);
    Ok(())
}

// Seat 0 has then seen 7. The last event changes nothing, since seat 1 was joined away.
fn put_and_join(core: &mut Core<TwoRows>) -> Result<(), WantMemory>
    requires { core.old ≡ started (λ _. 2200) core.old.truth }
    ensures seat { IfOk result (λ _. live_at core.new.views 0 ≡ Some record {
      truth = Some core.old.truth;
      seen = 7 ∷ [];
      floor = None;
      joined = false;
      steps = 3;
      last = Some (0, 0);
    }) }
    ensures gone { IfOk result (λ _. live_at core.new.views 1 ≡ None) }
{
    core.run(&[
        Event::Load { seat: 0, index: 7 },
        Event::Split { seat: 0 },
        Event::Put {
            seat: 1,
            index: 7,
            entry: Entry::Best(0),
        },
        Event::Join { into: 0, from: 1 },
        Event::Load { seat: 1, index: 7 },
    ])
}

#[test]
fn a_joined_seat_plays_no_more(rt: HostRuntime) -> Result<(), Fail> {
    let mut core = Core::start(rt.alloc(), TwoRows)?;
    put_and_join(&mut core)?;
    core.play(Event::Load { seat: 1, index: 7 })?;
    assert_eq!(rt; core.word(8), 2);
    assert_eq!(rt; core.word(0), 0);
    Ok(())
}

#[test]
fn words_are_read_back(rt: HostRuntime) -> Result<(), Fail> {
    assert_eq!(rt; Entry::from_word(0), None);
    assert_eq!(rt; Entry::from_word(1), Some(Entry::NoList));
    assert_eq!(rt;
        Entry::from_word(Entry::Best(u32::MAX).to_word()),
        Some(Entry::Best(u32::MAX))
    );
    assert_eq!(rt; quality_of_mark(0), None);
    assert_eq!(rt; quality_of_mark(101), Some(100));
    Ok(())
}
