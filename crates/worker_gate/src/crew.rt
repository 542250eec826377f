// Workers who have one runtime and one gate.
ghost use Rattle.std.specs.Prelude.{◌≡◌, ℕ, ◌<◌, ◌≤◌, length};
ghost use Rattle.std.specs.Fork.{ChangesEach};
ghost use Rattle.worker_gate.specs.Behind.{AcceptsBehind};

use crate::{Gate, each};
use std::marker::Model;
use std::thread::Threads;

/// 1 to 64 workers, and the runtime and the gate by which they work side by side. A search is lent a crew, and leaves
/// in each worker what it found.
#[derive(Drop)]
pub struct Crew<'a, R, G, W> {
    rt: &'a R,
    gate: &'a G,
    workers: Vec<W>,
}

impl<'a, R, G, W> Model for Crew<'a, R, G, W> {
    ghost use Rattle.std.specs.Prelude.{◌≤◌, length};
    ghost use Rattle.worker_gate.specs.Crews.{CrewFields};

    ghost Value = { CrewFields G W };

    ghost view = { λ c. record { gate = c.gate.now; workers = c.workers.items } };

    ghost invariant = { λ c. (1 ≤ length c.workers.items) × (length c.workers.items ≤ 64) };
}

impl<'a, R, G, W> Crew<'a, R, G, W> {
    /// The crew of 1 to 64 workers.
    pub fn new(rt: &'a R, gate: &'a G, workers: Vec<W>) -> Crew<'a, R, G, W>
        requires low { 1 ≤ length workers.items }
        requires high { length workers.items ≤ 64 }
        ensures gate { result.gate ≡ gate.now }
        ensures workers { result.workers ≡ workers.items }
    {
        Crew { rt, gate, workers }
    }

    /// The runtime.
    pub fn rt(&self) -> &'a R {
        self.rt
    }

    /// How many workers there are, 1 to 64.
    pub fn len(&self) -> u32
        ensures low { 1 ≤ result }
        ensures high { result ≤ 64 }
        ensures len { result ≡ length self.now.workers }
    {
        self.workers.len() as u32
    }

    /// The workers, in order.
    pub fn workers(&self) -> &[W]
        ensures low { 1 ≤ length result.now }
        ensures high { length result.now ≤ 64 }
        ensures workers { result.now ≡ self.now.workers }
    {
        &self.workers
    }

    /// The workers, in order, who leave the crew.
    pub fn into_workers(self) -> Vec<W>
        ensures { result.items ≡ self.entry.workers }
    {
        let Crew {
            rt: _,
            gate: _,
            workers,
        } = self;
        workers
    }
}

impl<'a, R: Threads + Sync, G: Gate, W: Send> Crew<'a, R, G, W> {
    /// Lets each worker k pass the gate, and then calls `work(k, worker)` once, side by side. Where a thread can't be
    /// started the caller does its work itself, so this call can't be refused. The work of a worker may ask that this
    /// worker has passed the gate. Each worker is left as `work` promises of it.
    pub fn each<F: Fn(u32, &mut W) + Sync>(&mut self, work: F)
        requires { AcceptsBehind F.Fn work (G.passed self.old.gate) self.old.workers }
        ensures gate { self.new.gate ≡ self.old.gate }
        ensures as_many { length self.new.workers ≡ length self.old.workers }
        ensures worked { ChangesEach F.Fn work self.old.workers self.new.workers }
        ensures passed { (k : ℕ) → k < length self.old.workers → G.passed self.old.gate k }
    {
        each(self.rt, &mut self.workers, self.gate, work);
    }
}
