//! Workers side by side, and the range of each.
#![tactic(auto)]

ghost use Rattle.std.specs.Prelude.{◌≡◌, ℕ, ◌+◌, ◌<◌, ◌≤◌, ⊤, length};
ghost use Rattle.std.specs.Fork.{ChangesEach, AcceptsAt, ChangesAt};
ghost use Rattle.worker_gate.specs.Behind.{AcceptsBehind};
ghost use Rattle.worker_gate.specs.Cut.{cut, CutsOnce};

mod crew;
#[cfg(test)]
mod tests;

pub use crew::Crew;
use std::thread;
use std::thread::Threads;

/// What each worker passes before its work. A gate may hold a worker back, so that a test can
/// force an order; it changes nothing that the work can see.
pub trait Gate: Sync {
    /// What it shows that a worker has passed. Code for any gate has it by a call of `pass` alone.
    ghost passed: { Self → ℕ → Type 0 } = { λ _ _. ⊤ };

    /// Called once by worker `worker`, counted from 0, before its work.
    fn pass(&self, worker: u32)
        ensures { passed self.now worker };
}

/// The gate that lets each worker through at once.
#[derive(Clone, Copy, Debug, Default)]
pub struct FreeGate;

impl Gate for FreeGate {
    fn pass(&self, _worker: u32) {}
}

/// The range of worker `k`, from the first place on and below the second, where the places below
/// `len` are cut among 1 to 64 workers. `ranges_law` says that these ranges are a partition.
pub fn range_of(len: usize, workers: u32, k: u32) -> (usize, usize)
    requires low { 1 ≤ workers }
    requires high { workers ≤ 64 }
    requires place { k < workers }
    ensures from { result.0 ≡ cut len workers k }
    ensures to { result.1 ≡ cut len workers (k + 1) }
    ensures ordered { result.0 ≤ result.1 }
    ensures within { result.1 ≤ len }
    ensures first { k ≡ 0 → result.0 ≡ 0 }
    ensures last { k + 1 ≡ workers → result.1 ≡ len }
{
    let whole = len as u128;
    let parts = u128::from(workers);
    let place = u128::from(k);
    let from = place * whole / parts;
    let to = (place + 1) * whole / parts;
    (from as usize, to as usize)
}

/// The law of the ranges: worker 0's begins at 0, each later one begins where the one before it
/// ends, the last one ends at `len`, and each place is in the range of one worker. It does nothing.
pub fn ranges_law(len: usize, workers: u32)
    requires low { 1 ≤ workers }
    ensures { CutsOnce len workers }
{}

/// Calls `gate.pass(k)` and then `work(k, &mut workers[k])` once for each place k of 1 to 64
/// workers, side by side. Where a thread can't be started the caller does its work itself, so
/// this call can't be refused. The work of a worker may ask that this worker has passed the gate.
/// Each worker is left as `work` promises of it.
pub fn each<W: Send, G: Gate, F: Fn(u32, &mut W) + Sync>(
    rt: &(impl Threads + Sync),
    workers: &mut [W],
    gate: &G,
    work: F,
)
    requires low { 1 ≤ length workers.old }
    requires high { length workers.old ≤ 64 }
    requires callable { AcceptsBehind F.Fn work (G.passed gate.now) workers.old }
    ensures worked { ChangesEach F.Fn work workers.old workers.new }
    ensures passed { (k : ℕ) → k < length workers.old → G.passed gate.now k }
{
    let count = workers.len();
    let call = &work;
    let part = move |k: usize, worker: &mut W|
        requires { (k < 64) × (G.passed gate.now k → AcceptsAt F.Fn call.now k worker.now) }
        ensures { ChangesAt F.Fn call.entry.now k worker.entry.now worker.exit.now × G.passed gate.entry.now k }
    { turn(gate, call, k, worker) };
    thread::for_each_mut(rt, workers, count, &part);
}

// The turn of worker `k`: the gate, and then the work.
fn turn<W, G: Gate, F: Fn(u32, &mut W)>(gate: &G, work: &F, k: usize, worker: &mut W)
    requires place { k < 64 }
    requires callable { G.passed gate.now k → AcceptsAt F.Fn work.now k worker.old }
    ensures worked { ChangesAt F.Fn work.now k worker.old worker.new }
    ensures passed { G.passed gate.now k }
{
    let place = k as u32;
    gate.pass(place);
    work(place, worker);
}
