//! The program, run on settings that are refused: it ends with 3, and nothing is written to the standard output.
#![tactic(auto)]

use solve_program::play;
use std::process::ExitCode;

fn main(rt: HostRuntime) -> ExitCode {
    ExitCode::from(play(&rt, rt.stdin(), rt.stdout(), rt.stderr()))
}
