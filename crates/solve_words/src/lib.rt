// The words after a program's name.
#![tactic(auto)]

ghost use Rattle.std.specs.Prelude.{◌≡◌, ◌≢◌, ◌↔◌, IfOk, IfErr, IsErrOf, MatchResult, None, Some, map, codes, string_bytes};
ghost use Rattle.std.specs.List.{list_any};
ghost use Rattle.clap.specs.Words.{app_of};
ghost use Rattle.solve_words.specs.Clap.{app};
ghost use Rattle.solve_words.specs.Form.{given_in, is_stray as stray};
ghost use Rattle.solve_words.specs.Words.{AreInRange, FindsOptions, HasSample, after_resume, after_sample, words_found, words_with, words_of};

mod best;
mod done;
mod fault;
pub mod laws;
#[cfg(test)]
mod tests;
mod values;
mod words;

use action_table::WantMemory;
pub use best::read_best_words;
use clap::{Arg, ArgAction, ArgMatches};
pub use done::Done;
use done::done_in;
pub use fault::WordsFault;
use fault::fault_for;
pub use replay_report::Report;
use std::alloc::Global;
use values::{is_stray, number_or, report_or, sample_number};
use words::RESUME_OPTIONS;
pub use words::{Command, Words};

const DEFAULT_WORKERS: u32 = 4;

const DEFAULT_GRAIN: u32 = 16;

/// Reads the words after the program's name: a command and then its options in any order, each at
/// most once, as `--name value` or `--name=value`. The command is `solve`, `resume`, `sweep`, `replay`, `check`,
/// `certify`, `verify`, or `sample` and the sample's number of one to six digits with no leading 0 unless it is `0`. All
/// but `replay` and `verify` have `--workers` and `--grain` of 1 to 64, and `solve` has `--report` as `plain`, `limits`
/// or `levels`. `resume` must have `--done`: the key names of one or more actions, with single commas between them.
/// BadWords comes for all other words, and for no others.
pub fn read_words(alloc: Global, words: &[String]) -> Result<Words, WordsFault>
    ensures ok { IfOk result (λ read. words_of (map string_bytes words.now) ≡ Some read) }
    ensures range { IfOk result AreInRange }
    ensures bad { IsErrOf result WordsFault.BadWords
        ↔ (words_of (map string_bytes words.now) ≡ None × ¬ IsErrOf result WordsFault.WantMemory) }
{
    let Some((first, rest)) = words.split_first() else {
        return Err(WordsFault::BadWords);
    };
    match first.as_str() {
        "solve" => with_options(alloc, Command::Solve, rest),
        "sample" => read_sample(alloc, rest),
        "resume" => read_resume(alloc, rest),
        "sweep" => with_options(alloc, Command::Sweep, rest),
        "replay" => with_options(alloc, Command::Replay, rest),
        "check" => with_options(alloc, Command::Check, rest),
        "certify" => with_options(alloc, Command::Certify, rest),
        "verify" => with_options(alloc, Command::Verify, rest),
        _ => Err(WordsFault::BadWords),
    }
}

// The words after `sample`: its number, and then options.
fn read_sample(alloc: Global, words: &[String]) -> Result<Words, WordsFault>
    ensures form { MatchResult result (λ read. after_sample (map string_bytes words.now) ≡ Some read)
        (λ e. e ≡ WordsFault.BadWords → after_sample (map string_bytes words.now) ≡ None) }
    ensures range { IfOk result AreInRange }
{
    let Some((number, rest)) = words.split_first() else {
        return Err(WordsFault::BadWords);
    };
    let Some(number) = sample_number(number.as_str()) else {
        return Err(WordsFault::BadWords);
    };
    with_options(alloc, Command::Sample(number), rest)
}

// The words after `resume`: options, among which the actions that are done must be.
fn read_resume(alloc: Global, words: &[String]) -> Result<Words, WordsFault>
    ensures form { MatchResult result (λ read. after_resume (map string_bytes words.now) ≡ Some read)
        (λ e. e ≡ WordsFault.BadWords → after_resume (map string_bytes words.now) ≡ None) }
    ensures range { IfOk result AreInRange }
{
    let matches = options(alloc, RESUME_OPTIONS, words)?;
    let Some(list) = matches.get_str("done") else {
        return Err(WordsFault::BadWords);
    };
    let Some(done) = done_in(alloc, list)? else {
        return Err(WordsFault::BadWords);
    };
    words_in(Command::Resume(done), &matches)
}

// The command with the options that the words give it.
fn with_options(alloc: Global, command: Command, words: &[String]) -> Result<Words, WordsFault>
    requires { HasSample command }
    ensures form { MatchResult result (λ read. words_with command (map string_bytes words.now) ≡ Some read)
        (λ e. e ≡ WordsFault.BadWords → words_with command (map string_bytes words.now) ≡ None) }
    ensures range { IfOk result AreInRange }
{
    let matches = options(alloc, command.option_names(), words)?;
    words_in(command, &matches)
}

// The command with the values of the options that were found.
fn words_in(command: Command, matches: &ArgMatches<'_>) -> Result<Words, WordsFault>
    requires { HasSample command }
    ensures form { MatchResult result (λ read. words_found command matches.now ≡ Some read)
        (λ _. words_found command matches.now ≡ None) }
    ensures range { IfOk result AreInRange }
{
    let Some(workers) = number_or(matches.get_str("workers"), DEFAULT_WORKERS) else {
        return Err(WordsFault::BadWords);
    };
    let Some(grain) = number_or(matches.get_str("grain"), DEFAULT_GRAIN) else {
        return Err(WordsFault::BadWords);
    };
    let Some(report) = report_or(matches.get_str("report")) else {
        return Err(WordsFault::BadWords);
    };
    Ok(Words {
        command,
        workers,
        grain,
        report,
    })
}

// Some word begins with a hyphen and names no option. clap takes `--`, which the form has not.
fn has_stray(words: &[String]) -> bool
    ensures { result ≡ list_any (λ word. stray (string_bytes word)) words.now }
{
    words.iter().any(|word| is_stray(word.as_str()))
}

// The options that clap finds. Words of which one is stray give none.
fn options<'a>(
    alloc: Global,
    names: &[&'a str],
    words: &'a [String],
) -> Result<ArgMatches<'a>, WordsFault>
    ensures ok { IfOk result (λ m. FindsOptions (map (λ s. s.now) names.now) (map string_bytes words.entry.now) m) }
    ensures bad { IfErr result (λ e. e ≡ WordsFault.BadWords
        → given_in (map (λ s. s.now) names.now) (map string_bytes words.entry.now) ≡ None) }
{
    if has_stray(words) {
        return Err(WordsFault::BadWords);
    }
    let command = command(alloc, names)?;
    match command.try_get_matches_from(words) {
        Ok(matches) => Ok(matches),
        Err(error) => Err(fault_for(error.kind())),
    }
}

// A command with these options, each with one value.
fn command<'a>(alloc: Global, names: &[&'a str]) -> Result<clap::Command<'a>, WantMemory>
    ensures { IfOk result (λ c. app_of c ≡ app (codes "options") (map (λ s. s.now) names.now)) }
{
    let mut command = clap::Command::new(alloc, "options")
        .no_binary_name(true)
        .disable_help_flag(true);
    for name in names {
        let option = Arg::new(alloc, *name).long(*name).action(ArgAction::Set);
        command = command.arg(option)?;
    }
    Ok(command)
}
