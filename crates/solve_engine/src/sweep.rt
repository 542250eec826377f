// The command `sweep`: the least base quality that is enough.
ghost use Rattle.std.specs.Prelude.{◌≡◌, ◌≤◌, IfOk, length};
ghost use Rattle.run_io.specs.Halts.{IsAnswerIn, IsIn};
ghost use Rattle.run_io.specs.declared.reading.TheConstants.{READ_MOST};
ghost use Rattle.solve_words.specs.Words.{AreInRange};
ghost use Rattle.solve_engine.specs.Sweep.{SweepAnswers, SweepsTo};

use crate::machine::Machine;
use crate::searches::best_of;
use crate::solve::nothing;
use crate::sweep_text::{least_text, short_text};
use action_table::{Action, WantMemory};
use craft_settings::Settings;
use run_io::{Answer, Halt, Status, settings_in};
use solve_words::Words;
use stat_sweep::{Solver, Swept};
use std::alloc::Global;
use std::thread::Threads;
use worker_gate::Gate;

// A search for the best macro, and how often it was asked.
#[derive(Drop)]
struct Counted<F> {
    find: F,
    calls: u32,
}

impl<F: Fn(&Settings) -> Result<Option<Vec<Action>>, WantMemory>> Solver for Counted<F> {
    ghost use Rattle.std.specs.Prelude.{IfOk, MatchOption};
    ghost use Rattle.std.specs.Fn.{FnReturnsAt};
    ghost use Rattle.craft_settings.specs.Ranges.{SettingsFields};
    ghost use Rattle.macro_order.specs.Order.{IsBest, NothingCompletes};

    ghost calls = { λ s. s.calls };

    ghost ready = { λ s. F.IsAlwaysCallable s.find × ((g : SettingsFields) (r : _) → FnReturnsAt F.Fn s.find g r
        → IfOk r (λ found. MatchOption found (NothingCompletes g) (λ m. IsBest g m.items))) };

    fn solve(&mut self, _alloc: Global, g: &Settings) -> Result<Option<Vec<Action>>, WantMemory> {
        self.calls += 1;
        (self.find)(g)
    }
}

/// What `sweep` answers to the bytes of a settings file.
pub(crate) fn sweep<R: Threads + Sync, G: Gate>(
    machine: &Machine<'_, R, G>,
    given: &Words,
    input: &[u8],
) -> Result<Answer, Halt>
    requires range { AreInRange given.now }
    requires within { length input.now ≤ READ_MOST }
    ensures { IsIn (SweepAnswers input.now) result }
{
    let settings = settings_in(machine.alloc, input)?;
    let mut search = Counted {
        find: |craft: &Settings|
            requires { AreInRange given.now }
        { best_of(machine, craft, given) },
        calls: 0,
    };
    Ok(swept(machine.alloc, &settings, &mut search)?)
}

// The least base quality that is enough, by any solver.
fn swept<V: Solver>(alloc: Global, g: &Settings, solver: &mut V) -> Result<Answer, WantMemory>
    requires calls { V.calls solver.old ≡ 0 }
    requires ready { V.ready solver.old }
    ensures { IfOk result (IsAnswerIn (SweepsTo g.now)) }
{
    match stat_sweep::sweep(alloc, g, solver)? {
        Swept::Nothing => nothing(alloc),
        Swept::Short { at } => Ok(Answer {
            status: Status::NotReached,
            text: short_text(alloc, g, &at)?,
        }),
        Swept::Least { base, at, below } => Ok(Answer {
            status: Status::Solved,
            text: least_text(alloc, g, base, &at, below.as_ref())?,
        }),
    }
}
