// A source and a sink over memory, whose calls fail where their maker says.
ghost use Rattle.std.specs.Prelude.{◌≡◌, ◌≤◌, ◌<◌, ◌+◌, ◌-◌, ◌++◌, ◌↔◌, ◌⊎◌, length, take, min, IsErr, IfOk, OnErr, Contains, Some};
ghost use Rattle.std.specs.Io.{ReadsAtMost};
ghost use Rattle.std.specs.Io.KnownBytes.{Appends, Keeps, ReadConsumes};
ghost use Rattle.craft_io.specs.Causes.{CountsFault, CountsRead, most_count, next_count};

use crate::{Failed, Sink, Source};

/// Bytes in memory that come in.
#[derive(Drop)]
pub struct MemorySource<'a> {
    rest: &'a [u8],
    piece: usize,
    fails: &'a [u64],
    calls: u64,
    reads: u64,
    faults: u64,
    ghost moves: { 1 ≤ piece },
    ghost counts: { (faults ≤ most_count) × (reads ≤ most_count) },
}

impl<'a> MemorySource<'a> {
    /// Gives these bytes in pieces of at most `piece` bytes. Its call number k fails exactly where
    /// k is in `fails`; the first is 1.
    pub fn new(bytes: &'a [u8], piece: usize, fails: &'a [u64]) -> MemorySource<'a>
        requires { 1 ≤ piece }
        ensures rest { result.rest.now ≡ bytes.now }
        ensures piece { result.piece ≡ piece }
        ensures fails { result.fails.now ≡ fails.now }
        ensures calls { result.calls ≡ 0 }
        ensures reads { result.reads ≡ 0 }
        ensures faults { result.faults ≡ 0 }
    {
        MemorySource {
            rest: bytes,
            piece,
            fails,
            calls: 0,
            reads: 0,
            faults: 0,
        }
    }
}

impl<'a> Source for MemorySource<'a> {
    ghost view = { λ s. record { left = Some s.rest.now; faults = s.faults; reads = s.reads } };

    fn read(&mut self, buf: &mut [u8]) -> Result<usize, Failed>
        ensures bound { ReadsAtMost result buf.new }
        ensures bytes { ReadConsumes (Some self.old.rest.now) (Some self.new.rest.now) result buf.new }
        ensures faults { CountsFault self.old.faults self.new.faults result }
        ensures reads { CountsRead self.old.reads self.new.reads result }
        ensures fails { IsErr result ↔ Contains self.old.fails.now (next_count self.old.calls) }
        ensures count { IfOk result (λ n. n ≡ min self.old.piece (min (length buf.old) (length self.old.rest.now))) }
        ensures calls { self.new.calls ≡ next_count self.old.calls }
        ensures same { (self.new.piece ≡ self.old.piece) × (self.new.fails.now ≡ self.old.fails.now) }
    {
        self.calls = self.calls.saturating_add(1);
        if self.fails.contains(&self.calls) {
            self.faults = self.faults.saturating_add(1);
            return Err(Failed);
        }
        let count = self.piece.min(buf.len()).min(self.rest.len());
        let (front, rest) = self.rest.split_at(count);
        buf[..count].copy_from_slice(front);
        self.rest = rest;
        self.reads = self.reads.saturating_add(1);
        Ok(count)
    }

    ghost counts = { λ s. s.counts };
}

/// Room in memory for bytes that go out.
#[derive(Drop)]
pub struct MemorySink<'a> {
    room: &'a mut [u8],
    used: usize,
    piece: usize,
    fails: &'a [u64],
    calls: u64,
    faults: u64,
    ghost moves: { 1 ≤ piece },
    ghost within: { used ≤ length room.now },
    ghost count: { faults ≤ most_count },
}

impl<'a> MemorySink<'a> {
    /// Takes bytes into `room` in pieces of at most `piece` bytes. Its call number k fails where k
    /// is in `fails`, and where the room is full; the first is 1.
    pub fn new(room: &'a mut [u8], piece: usize, fails: &'a [u64]) -> MemorySink<'a>
        requires { 1 ≤ piece }
        ensures room { length result.room.now ≡ length room.old }
        ensures used { result.used ≡ 0 }
        ensures piece { result.piece ≡ piece }
        ensures fails { result.fails.now ≡ fails.now }
        ensures calls { result.calls ≡ 0 }
        ensures faults { result.faults ≡ 0 }
    {
        MemorySink {
            room,
            used: 0,
            piece,
            fails,
            calls: 0,
            faults: 0,
        }
    }

    /// The bytes taken so far.
    pub fn taken(&self) -> &[u8]
        ensures { result.now ≡ take self.now.used self.now.room.now }
    {
        &self.room[..self.used]
    }
}

impl<'a> Sink for MemorySink<'a> {
    ghost view = { λ s. record { taken = Some (take s.used s.room.now); faults = s.faults } };

    fn write(&mut self, piece: &[u8]) -> Result<usize, Failed>
        requires { 0 < length piece.now }
        ensures bound { IfOk result (λ n. (0 < n) × (n ≤ length piece.now)) }
        ensures bytes { IfOk result (λ n. Appends (Some (take self.old.used self.old.room.now))
            (Some (take self.new.used self.new.room.now)) (take n piece.now)) }
        ensures kept { OnErr result (Keeps (Some (take self.old.used self.old.room.now)) (Some (take self.new.used self.new.room.now))) }
        ensures faults { CountsFault self.old.faults self.new.faults result }
        ensures fails { IsErr result ↔
            (Contains self.old.fails.now (next_count self.old.calls) ⊎ (length self.old.room.now ≤ self.old.used)) }
        ensures count { IfOk result (λ n. n ≡ min self.old.piece (min (length piece.now) (length self.old.room.now - self.old.used))) }
        ensures calls { self.new.calls ≡ next_count self.old.calls }
        ensures same { (self.new.piece ≡ self.old.piece) × (self.new.fails.now ≡ self.old.fails.now) }
        ensures size { length self.new.room.now ≡ length self.old.room.now }
    {
        self.calls = self.calls.saturating_add(1);
        if self.fails.contains(&self.calls) || self.used >= self.room.len() {
            self.faults = self.faults.saturating_add(1);
            return Err(Failed);
        }
        let count = self.piece.min(piece.len()).min(self.room.len() - self.used);
        self.room[self.used..self.used + count].copy_from_slice(&piece[..count]);
        self.used += count;
        Ok(count)
    }

    ghost counts = { λ s. s.count };
}
