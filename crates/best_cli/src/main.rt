//! Reads settings from the standard input, and writes the best macro alone to the standard output.
#![tactic(auto)]

use best_program::play;
use std::process::ExitCode;

fn main(rt: HostRuntime) -> ExitCode {
    ExitCode::from(play(&rt, rt.stdin(), rt.stdout(), rt.stderr()))
}
