//! The program over a process: its words, and its standard input, output and error.
#![tactic(auto)]

ghost use Rattle.std.specs.Prelude.{◌≡◌, ◌≢◌, ◌≤◌, ◌↔◌};
ghost use Rattle.run_io.specs.Statuses.{code_of};
ghost use Rattle.solve_engine.specs.Commands.{most_for};
ghost use Rattle.solve_engine.specs.Words.{AreBad};

use craft_io::{Sink, Source, StdSink, StdSource};
use solve_engine::{Status, run};
use std::env::Env;
use std::io::{Read, Write};
use std::thread::Threads;
use worker_gate::FreeGate;

/// Runs the command that the words of the process are, over these devices, and gives the exit status of the program.
/// Where no memory is found for the words, or one isn't UTF-8, nothing is read or written.
pub fn play<
    R: Env + AllocGlobal + Threads + Sync,
    I: Read + Drop,
    O: Write + Drop,
    E: Write + Drop,
>(rt: &R, input: I, output: O, errors: E) -> u8
    ensures { (status : Status) × (result ≡ code_of status) }
{
    let source = StdSource::new(input);
    let (out, err) = (StdSink::new(output), StdSink::new(errors));
    program_words::play(rt, source, out, err, |words, source, out, err| {
        answer(rt, words, source, out, err)
    })
}

// How the run for these words ends.
fn answer<R: AllocGlobal + Threads + Sync, S: Source, O: Sink, E: Sink>(
    rt: &R,
    words: &[String],
    source: &mut S,
    out: &mut O,
    err: &mut E,
) -> Status
    ensures bad_words { (result ≡ Status.BadWords) ↔ (AreBad words.now × (result ≢ Status.WantMemory)) }
    ensures bad_settings { result ≡ Status.BadSettings → 1 ≤ most_for words.now }
{
    run(rt, rt.alloc(), words, source, out, err, &FreeGate)
}
