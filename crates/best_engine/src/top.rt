// The top call.
ghost use Rattle.std.specs.Prelude.{◌≡◌, None};
ghost use Rattle.craft_settings.specs.Ranges.{IsFromTo};
ghost use Rattle.run_io.specs.Answering.{ReadsAndWrites};
ghost use Rattle.run_io.specs.Halts.{RunsTo};
ghost use Rattle.run_io.specs.Statuses.{IsBeforeWriting, IsResult};
ghost use Rattle.run_io.specs.declared.reading.TheConstants.{READ_MOST};
ghost use Rattle.best_engine.specs.Best.{BestAnswers};
ghost use Rattle.best_engine.specs.Words.{Ends, IsDone, asked};

use crate::best::best;
use craft_io::{Sink, Source};
use run_io::{Answer, Halt, READ_MOST, Status, read_up_to, tell, write_answer};
use solve_words::{WordsFault, read_best_words};
use std::alloc::Global;
use std::thread::Threads;
use worker_gate::Gate;

/// Finds the best macro for the settings that come in.
///
/// The words are none, or how many workers search, as `read_best_words` has them. Settings are read from `source`, at
/// most 65537 bytes, and the text of the best macro is written to `out`: the first line, the macro blocks, and the
/// replay; or `none` where no legal macro completes the craft. Every other answer comes with a line on `err`. A failure
/// of `err` changes nothing, and neither the number of workers nor the gate does.
pub fn run<S: Source, O: Sink, E: Sink, G: Gate>(
    rt: &(impl Threads + Sync),
    alloc: Global,
    words: &[String],
    source: &mut S,
    out: &mut O,
    err: &mut E,
    gate: &G,
) -> Status
    // The headline. The bytes of the source, all of them, are accepted as settings, and what was written to `out` is the
    // text of their best macro, or `none` where no legal macro completes.
    ensures best { IsResult result
        → ReadsAndWrites BestAnswers result (S.view source.old) (S.view source.new) (O.view out.old) (O.view out.new) }

    // What its status means, and what was read, written and told.
    ensures ends { Ends words.now result
        (record { source = S.view source.old; out = O.view out.old; err = E.view err.old })
        (record { source = S.view source.new; out = O.view out.new; err = E.view err.new }) }
    // What stays as it was.
    ensures nothing_read { asked words.now ≡ None → source.new ≡ source.old }
    ensures nothing_written { IsBeforeWriting result → out.new ≡ out.old }
    ensures nothing_told { IsResult result → err.new ≡ err.old }
{
    match outcome_of(rt, alloc, words, source, gate) {
        Ok(answer) => write_answer(out, err, &answer),
        Err(halt) => tell(err, &halt),
    }
}

// What the words come to before anything is written.
fn outcome_of<S: Source, G: Gate>(
    rt: &(impl Threads + Sync),
    alloc: Global,
    words: &[String],
    source: &mut S,
    gate: &G,
) -> Result<Answer, Halt>
    ensures done { IsDone words.now result (S.view source.old) (S.view source.new) }
    ensures nothing_read { asked words.now ≡ None → source.new ≡ source.old }
{
    match read_best_words(alloc, words) {
        Ok(workers) => carry_out(rt, alloc, workers, source, gate),
        Err(WordsFault::BadWords) => Err(Halt::BadWords),
        Err(WordsFault::WantMemory) => Err(Halt::WantMemory),
    }
}

// The answer to the settings that are read.
fn carry_out<S: Source, G: Gate>(
    rt: &(impl Threads + Sync),
    alloc: Global,
    workers: u32,
    source: &mut S,
    gate: &G,
) -> Result<Answer, Halt>
    requires { IsFromTo 1 64 workers }
    ensures { RunsTo BestAnswers READ_MOST result (S.view source.old) (S.view source.new) }
{
    let input = read_up_to(alloc, source, READ_MOST)?;
    best(rt, alloc, workers, &input, gate)
}
