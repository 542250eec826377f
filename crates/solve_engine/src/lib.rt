//! The whole of a run: words, settings and macros come in, and the text that the command answers goes out.
#![tactic(auto)]

mod certify;
mod check;
pub mod laws;
mod machine;
mod pasted;
mod replay;
mod resume;
mod sample;
mod searches;
mod solve;
mod sweep;
mod sweep_text;
mod top;
mod verify;

pub use run_io::Status;
pub use top::run;

#[cfg(test)]
mod certificate_tests;
#[cfg(test)]
mod device_tests;
#[cfg(test)]
mod file_tests;
#[cfg(test)]
mod macro_tests;
#[cfg(test)]
mod resume_tests;
#[cfg(test)]
mod sample_tests;
#[cfg(test)]
mod sweep_tests;
#[cfg(test)]
mod tests;
