// The top call.
ghost use Rattle.std.specs.Prelude.{◌≡◌, ◌≤◌, ℕ, List, length};
ghost use Rattle.action_table.specs.declared.action.Action.{Action};
ghost use Rattle.run_io.specs.Answering.{ReadsAndWrites, Writes};
ghost use Rattle.run_io.specs.Halts.{IsIn, RunsTo};
ghost use Rattle.run_io.specs.Reading.{ReadsAll};
ghost use Rattle.run_io.specs.Statuses.{IsBeforeWriting, IsResult};
ghost use Rattle.solve_words.specs.Words.{AreInRange};
ghost use Rattle.solve_engine.specs.Certify.{CertifyAnswers};
ghost use Rattle.solve_engine.specs.Check.{CheckAnswers};
ghost use Rattle.solve_engine.specs.Commands.{Answers, Ends, IsDone, most_for, most_of};
ghost use Rattle.solve_engine.specs.Replay.{ReplayAnswers};
ghost use Rattle.solve_engine.specs.Resume.{ResumeAnswers};
ghost use Rattle.solve_engine.specs.Sample.{SampleAnswers};
ghost use Rattle.solve_engine.specs.Solve.{SolveAnswers};
ghost use Rattle.solve_engine.specs.Sweep.{SweepAnswers};
ghost use Rattle.solve_engine.specs.Verify.{VerifyAnswers};
ghost use Rattle.solve_engine.specs.Words.{AskTo, AskToSample, AskToSolve};

use crate::certify::certify;
use crate::check::check;
use crate::machine::Machine;
use crate::replay::replay;
use crate::resume::resume;
use crate::sample::sample;
use crate::solve::solve;
use crate::sweep::sweep;
use crate::verify::{READ_TEXT, verify};
use craft_io::{Sink, Source};
use run_io::{Answer, Halt, READ_MOST, Status, read_up_to, tell, write_answer};
use solve_words::{Command, Words, WordsFault, read_words};
use std::alloc::Global;
use std::thread::Threads;
use worker_gate::Gate;

/// Runs the command that the words are.
///
/// The words are a command and its options, as `read_words` has them. `solve` reads settings from `source`, at most
/// 65537 bytes, and writes the text of the best macro to `out`, in the style and at the grain that the words name, or
/// `none` where no legal macro completes the craft. `sample` reads nothing, and writes two lines on the best macro of
/// the sample settings of its number. `resume` reads settings, and writes the text of the best way to end the craft
/// after the actions that are done, or `none`. `sweep` reads settings too, and writes the least base quality with which
/// a macro has all the quality that counts. `replay` and `check` read settings, a line `---` and macro text, together at
/// most 65536 bytes; `replay` writes what the macro does step by step, and `check` whether it is the best one. `certify`
/// reads settings, and writes the certificate of the best macro, or `none`. `verify` reads settings, a line `---` and a
/// certificate, together at most 16777216 bytes, and writes `accepted` where it is one. Every other answer comes with a
/// line on `err`. A failure of `err` changes nothing, and neither the number of workers nor the gate does.
pub fn run<S: Source, O: Sink, E: Sink, G: Gate>(
    rt: &(impl Threads + Sync),
    alloc: Global,
    words: &[String],
    source: &mut S,
    out: &mut O,
    err: &mut E,
    gate: &G,
) -> Status
    // The headline. The bytes of the source, all of them, are accepted as settings, and what was written to `out` is the
    // text of their best macro, as the words ask for it, or `none` where no legal macro completes.
    ensures solve { (asked : AskToSolve words.now) → IsResult result
        → (input : List ℕ) × ReadsAll input (S.view source.old) (S.view source.new)
        × Writes (SolveAnswers asked.given input) result (O.view out.old) (O.view out.new) }
    // The two lines on the best macro of a sample were written, or on none.
    ensures sample { (asked : AskToSample words.now) → IsResult result
        → Writes (SampleAnswers asked.given asked.number) result (O.view out.old) (O.view out.new) }
    // The text of the best way to end the craft after the actions that are done was written, or that there is none.
    ensures resume { (done : List Action) → AskTo (Command.Resume done) words.now → IsResult result
        → ReadsAndWrites (ResumeAnswers done) result (S.view source.old) (S.view source.new) (O.view out.old) (O.view out.new) }
    // The least base quality that is enough for the settings was written, or that none is.
    ensures sweep { AskTo Command.Sweep words.now → IsResult result
        → ReadsAndWrites SweepAnswers result (S.view source.old) (S.view source.new) (O.view out.old) (O.view out.new) }
    // What the macro after the settings does was written, up to its end or to the first action that isn't legal.
    ensures replay { AskTo Command.Replay words.now → IsResult result
        → ReadsAndWrites ReplayAnswers result (S.view source.old) (S.view source.new) (O.view out.old) (O.view out.new) }
    // Whether the macro after the settings is the best one was written.
    ensures check { (asked : AskTo Command.Check words.now) → IsResult result
        → ReadsAndWrites (CheckAnswers asked.given) result (S.view source.old) (S.view source.new) (O.view out.old) (O.view out.new) }
    // The certificate that is made for the best macro was written, or `none`.
    ensures certify { (asked : AskTo Command.Certify words.now) → IsResult result
        → ReadsAndWrites (CertifyAnswers asked.given) result (S.view source.old) (S.view source.new) (O.view out.old) (O.view out.new) }
    // What follows the settings is a certificate, and `accepted` was written.
    ensures verify { AskTo Command.Verify words.now → IsResult result
        → ReadsAndWrites VerifyAnswers result (S.view source.old) (S.view source.new) (O.view out.old) (O.view out.new) }

    // Of every command: what its status means, and what was read, written and told.
    ensures ends { Ends words.now result
        (record { source = S.view source.old; out = O.view out.old; err = E.view err.old })
        (record { source = S.view source.new; out = O.view out.new; err = E.view err.new }) }
    // What stays as it was.
    ensures nothing_read { most_for words.now ≡ 0 → source.new ≡ source.old }
    ensures nothing_written { IsBeforeWriting result → out.new ≡ out.old }
    ensures nothing_told { IsResult result → err.new ≡ err.old }
{
    let machine = Machine { rt, alloc, gate };
    match outcome_of(&machine, words, source) {
        Ok(answer) => write_answer(out, err, &answer),
        Err(halt) => tell(err, &halt),
    }
}

// What the words come to before anything is written.
fn outcome_of<S: Source, R: Threads + Sync, G: Gate>(
    machine: &Machine<'_, R, G>,
    words: &[String],
    source: &mut S,
) -> Result<Answer, Halt>
    ensures done { IsDone words.now result (S.view source.old) (S.view source.new) }
    ensures nothing_read { most_for words.now ≡ 0 → source.new ≡ source.old }
{
    match read_words(machine.alloc, words) {
        Ok(given) => carry_out(machine, &given, source),
        Err(WordsFault::BadWords) => Err(Halt::BadWords),
        Err(WordsFault::WantMemory) => Err(Halt::WantMemory),
    }
}

// The answer of a command to the input that it reads.
fn carry_out<S: Source, R: Threads + Sync, G: Gate>(
    machine: &Machine<'_, R, G>,
    given: &Words,
    source: &mut S,
) -> Result<Answer, Halt>
    requires { AreInRange given.now }
    ensures runs { RunsTo (Answers given.now) (most_of given.now.command) result (S.view source.old) (S.view source.new) }
    ensures nothing_read { most_of given.now.command ≡ 0 → source.new ≡ source.old }
{
    let input = read_up_to(machine.alloc, source, most_of(&given.command))?;
    answer_to(machine, given, &input)
}

// The answer of a command to its input.
fn answer_to<R: Threads + Sync, G: Gate>(
    machine: &Machine<'_, R, G>,
    given: &Words,
    input: &[u8],
) -> Result<Answer, Halt>
    requires range { AreInRange given.now }
    requires within { length input.now ≤ most_of given.now.command }
    ensures { IsIn (Answers given.now input.now) result }
{
    match &given.command {
        Command::Solve => solve(machine, given, input),
        Command::Sample(n) => sample(machine, given, *n),
        Command::Resume(done) => resume(machine, given.workers, &done.actions, input),
        Command::Sweep => sweep(machine, given, input),
        Command::Replay => replay(machine.alloc, input),
        Command::Check => check(machine, given, input),
        Command::Certify => certify(machine, given, input),
        Command::Verify => verify(machine.alloc, input),
    }
}

// The most bytes that a command reads.
fn most_of(command: &Command) -> usize
    ensures { result ≡ most_of command.now }
{
    match command {
        Command::Solve | Command::Resume(_) | Command::Sweep | Command::Replay | Command::Check =>
            READ_MOST,
        Command::Certify => READ_MOST,
        Command::Verify => READ_TEXT,
        Command::Sample(_) => 0,
    }
}
