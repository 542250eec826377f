//! The program that finds the best macro alone, over a process: its words, and its standard input, output and error.
#![tactic(auto)]

ghost use Rattle.std.specs.Prelude.{◌≡◌, ◌≢◌, ◌↔◌, None};
ghost use Rattle.run_io.specs.Statuses.{code_of};
ghost use Rattle.best_engine.specs.Words.{asked};

use best_engine::{Status, run};
use craft_io::{Sink, Source, StdSink, StdSource};
use std::env::Env;
use std::io::{Read, Write};
use std::thread::Threads;
use worker_gate::FreeGate;

/// Finds the best macro as the words of the process ask for it, over these devices, and gives the exit status of the
/// program. Where no memory is found for the words, or one isn't UTF-8, nothing is read or written.
pub fn play<
    R: Env + AllocGlobal + Threads + Sync,
    I: Read + Drop,
    O: Write + Drop,
    E: Write + Drop,
>(rt: &R, input: I, output: O, errors: E) -> u8
    ensures { (status : Status) × (result ≡ code_of status) }
{
    let source = StdSource::new(input);
    let (out, err) = (StdSink::new(output), StdSink::new(errors));
    program_words::play(rt, source, out, err, |words, source, out, err| {
        answer(rt, words, source, out, err)
    })
}

// How the run for these words ends.
fn answer<R: AllocGlobal + Threads + Sync, S: Source, O: Sink, E: Sink>(
    rt: &R,
    words: &[String],
    source: &mut S,
    out: &mut O,
    err: &mut E,
) -> Status
    ensures { (result ≡ Status.BadWords) ↔ ((asked words.now ≡ None) × (result ≢ Status.WantMemory)) }
{
    run(rt, rt.alloc(), words, source, out, err, &FreeGate)
}
