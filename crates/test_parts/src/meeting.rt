// A gate at which two workers wait for each other.
use std::sync::atomic::{AtomicU64, Ordering};
use worker_gate::Gate;

/// How often a wait looks before it gives up.
pub const TURNS: u32 = 100_000_000;

/// Whether a flag is set before the waiting ends.
pub fn is_set_in_time(flag: &AtomicU64) -> bool {
    for _ in 0..TURNS {
        if flag.load(Ordering::SeqCst) == 1 {
            return true;
        }
    }
    false
}

/// A flag for each of two workers.
#[derive(Drop)]
pub struct Flags {
    first: AtomicU64,
    second: AtomicU64,
}

impl Flags {
    /// Flags that are not set.
    pub fn new() -> Flags {
        Flags {
            first: AtomicU64::new(0),
            second: AtomicU64::new(0),
        }
    }

    /// The flag of a worker, counted from 0.
    pub fn of(&self, worker: u32) -> &AtomicU64 {
        if worker == 0 {
            &self.first
        } else {
            &self.second
        }
    }
}

/// Each of two workers shows its flag at the gate, and waits there for the other's.
#[derive(Drop)]
pub struct Meeting {
    flags: Flags,
    missed: AtomicU64,
}

impl Meeting {
    /// A gate at which no worker has been.
    pub fn new() -> Meeting {
        Meeting {
            flags: Flags::new(),
            missed: AtomicU64::new(0),
        }
    }

    /// Whether a worker, counted from 0, has come.
    pub fn has_come(&self, worker: u32) -> bool {
        self.flags.of(worker).load(Ordering::SeqCst) == 1
    }

    /// Whether both workers came, and none gave up waiting for the other.
    pub fn have_met(&self) -> bool {
        self.has_come(0) && self.has_come(1) && self.missed.load(Ordering::SeqCst) == 0
    }
}

impl Gate for Meeting {
    fn pass(&self, worker: u32) {
        self.flags.of(worker).store(1, Ordering::SeqCst);
        if !is_set_in_time(self.flags.of(1 - worker.min(1))) {
            self.missed.store(1, Ordering::SeqCst);
        }
    }
}
