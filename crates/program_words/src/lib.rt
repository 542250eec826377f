//! What every program does with its process: the words that it was started with, and its exit status.
#![tactic(auto)]

ghost use Rattle.std.specs.Prelude.{◌≡◌, ◌⊎◌};
ghost use Rattle.run_io.specs.Statuses.{code_of};

use run_io::Status;
use std::alloc::AllocError;
use std::env;
use std::env::Env;

/// Runs for the words of the process, over a source and sinks, and gives the exit status of the program. Where no memory
/// is found for the words, or one isn't UTF-8, there is no run.
pub fn play<R, S, O, E, F>(rt: &R, source: S, out: O, err: E, run: F) -> u8
where
    R: Env + AllocGlobal,
    S: Drop,
    O: Drop,
    E: Drop,
    F: FnOnce(&[String], &mut S, &mut O, &mut E) -> Status,
    requires { F.IsAlwaysCallable run }
    ensures status { (status : Status) × (result ≡ code_of status) }
    ensures ran { (result ≡ code_of Status.WantMemory)
        ⊎ ((words : _) × (s : _) × (o : _) × (e : _) × (status : Status) × (s' : _) × (o' : _) × (e' : _)
        × F.post run words s o e status s' o' e' × (result ≡ code_of status)) }
{
    let Ok(words) = words(rt) else {
        return Status::WantMemory.code();
    };
    let mut source = source;
    let mut out = out;
    let mut err = err;
    run(&words, &mut source, &mut out, &mut err).code()
}

/// The words after the program's name. AllocError comes where no memory is found for them, or one isn't UTF-8.
pub fn words<R: Env + AllocGlobal>(rt: &R) -> Result<Vec<String>, AllocError> {
    let Ok(all) = env::args(rt) else {
        return Err(AllocError);
    };
    all.skip(1).collect(rt.alloc())
}
