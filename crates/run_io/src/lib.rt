//! What every program's run shares: the input that is read, the answer that is written, and the lines that tell faults.
#![tactic(auto)]

mod answer;
mod ending;
mod fault_lines;
mod halt;
mod reading;
mod status;
#[cfg(test)]
mod tests;

pub use answer::{Answer, Refusal};
pub use ending::{tell, write_answer};
pub use halt::Halt;
pub use reading::{READ_MOST, read_up_to, settings_in};
pub use status::Status;
