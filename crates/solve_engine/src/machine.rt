// What searches run on.

use std::alloc::Global;

/// What searches run on: the runtime with its threads, the allocator, and the gate that workers pass.
#[derive(Drop)]
pub(crate) struct Machine<'a, R, G> {
    pub(crate) rt: &'a R,
    pub(crate) alloc: Global,
    pub(crate) gate: &'a G,
}
