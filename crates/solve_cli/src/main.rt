//! Reads settings from the standard input, and writes the best macro to the standard output.
#![tactic(auto)]

use solve_program::play;
use std::process::ExitCode;

fn main(rt: HostRuntime) -> ExitCode {
    ExitCode::from(play(&rt, rt.stdin(), rt.stdout(), rt.stderr()))
}
