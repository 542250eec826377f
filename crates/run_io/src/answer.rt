// What a run comes to before anything is written.

use crate::status::Status;

/// A result, and its text for `out`.
#[derive(Drop)]
pub struct Answer {
    pub status: Status,
    pub text: Vec<u8>,
}

/// What came in is refused; the line for `err` says why.
#[derive(Drop)]
pub struct Refusal {
    pub status: Status,
    pub line: Vec<u8>,
}
