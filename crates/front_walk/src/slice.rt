// A slice of a level.
ghost use Rattle.std.specs.Prelude.{◌≡◌, ◌≤◌, ◌<◌, ◌+◌, ◌-◌};
ghost use Rattle.worker_gate.specs.Cut.{cut};

use worker_gate::range_of;

/// The nodes of a level from one place on and below another.
#[derive(Clone, Copy)]
pub(crate) struct Slice {
    pub(crate) from: usize,
    pub(crate) to: usize,
    ghost order: { from ≤ to },
}

impl Slice {
    /// What worker `k` of 1 to 64 has of it.
    pub(crate) fn part(&self, workers: u32, k: u32) -> Slice
        requires low { 1 ≤ workers }
        requires high { workers ≤ 64 }
        requires place { k < workers }
        ensures from { result.from ≡ self.now.from + cut (self.now.to - self.now.from) workers k }
        ensures to { result.to ≡ self.now.from + cut (self.now.to - self.now.from) workers (k + 1) }
        ensures inside { result.to ≤ self.now.to }
    {
        let (from, to) = range_of(self.to - self.from, workers, k);
        Slice {
            from: self.from + from,
            to: self.from + to,
        }
    }
}
