//! Bytes that come in and go out, by sources and sinks that count their faults.
#![tactic(auto)]

mod memory;
mod standard;

ghost use Rattle.std.specs.Prelude.{◌≡◌, ◌<◌, ◌≤◌, ◌+◌, ◌-◌, ℕ, length, min, take, IfOk, OnOk, OnErr};
ghost use Rattle.std.specs.Io.{ReadsAtMost};
ghost use Rattle.std.specs.Io.KnownBytes.{Keeps, ReadConsumes};
ghost use Rattle.craft_io.specs.Causes.{CountsFault, CountsRead, most_count};
ghost use Rattle.craft_io.specs.Views.{Gains, GainsPart, Gives, GivesFewer, HasEnded, ReadsAtMostTimes, SinkView, SourceView};

pub use memory::{MemorySink, MemorySource};
pub use standard::{StdSink, StdSource};

#[cfg(test)]
mod tests;

/// A read or a write failed.
#[derive(Clone, Copy, Debug, PartialEq, Eq)]
pub struct Failed;

/// Bytes that come in.
pub trait Source {
    /// The bytes still to come, where they are told, and how often a read has failed and has succeeded.
    /// Both counts stand still at 2^64 - 1.
    ghost view: { Self → SourceView };

    /// Puts the next bytes at the front of `buf` and says how many. None come only at the end.
    /// Where it fails, no byte is taken. A failure is counted as a fault, and nothing else is.
    fn read(&mut self, buf: &mut [u8]) -> Result<usize, Failed>
        requires { 0 < length buf.old }
        ensures bound { ReadsAtMost result buf.new }
        ensures bytes { ReadConsumes (view self.old).left (view self.new).left result buf.new }
        ensures faults { CountsFault (view self.old).faults (view self.new).faults result }
        ensures reads { CountsRead (view self.old).reads (view self.new).reads result };

    /// No count passes its end.
    ghost counts: { (s : Self) → ((view s).faults ≤ most_count) × ((view s).reads ≤ most_count) };
}

/// A place for bytes that go out.
pub trait Sink {
    /// The bytes taken so far, where they are told, and how often a write has failed. The count stands still at 2^64 - 1.
    ghost view: { Self → SinkView };

    /// Takes one byte or more of the front of `piece` and says how many.
    /// Where it fails, no byte is taken. A failure is counted as a fault, and nothing else is.
    fn write(&mut self, piece: &[u8]) -> Result<usize, Failed>
        requires { 0 < length piece.now }
        ensures bound { IfOk result (λ n. (0 < n) × (n ≤ length piece.now)) }
        ensures bytes { IfOk result (λ n. Gains (take n piece.now) (view self.old) (view self.new)) }
        ensures kept { OnErr result (Keeps (view self.old).taken (view self.new).taken) }
        ensures faults { CountsFault (view self.old).faults (view self.new).faults result };

    /// The count doesn't pass its end.
    ghost counts: { (s : Self) → (view s).faults ≤ most_count };
}

/// Reads until `buf` is full or the source is at its end, and answers how many bytes came.
/// It fails where a read fails, and tries none again.
pub fn fill<S: Source>(source: &mut S, buf: &mut [u8]) -> Result<usize, Failed>
    ensures bound { IfOk result (λ n. n ≤ length buf.old) }
    ensures bytes { IfOk result (λ n. Gives (take n buf.new) (S.view source.old) (S.view source.new)) }
    // Fewer come only at the end.
    ensures end { IfOk result (λ n. n < length buf.old → HasEnded (S.view source.new)) }
    // Then fewer bytes than the buffer has were taken.
    ensures failed { OnErr result (GivesFewer (length buf.old) (S.view source.old) (S.view source.new)) }
    // No read fails in a success, and one in a failure.
    ensures faults { CountsFault (S.view source.old).faults (S.view source.new).faults result }
    // Each read but the last brings a byte, and so does the last one where it fills the buffer.
    ensures reads { IfOk result (λ n. ReadsAtMostTimes (min (n + 1) (length buf.old)) (S.view source.old) (S.view source.new)) }
    ensures failed_reads { OnErr result (ReadsAtMostTimes (length buf.old - 1) (S.view source.old) (S.view source.new)) }
    ensures nothing { length buf.old ≡ 0 → source.new ≡ source.old }
{
    let mut at = 0;
    while at < buf.len() {
        let count = source.read(&mut buf[at..])?;
        if count == 0 {
            return Ok(at);
        }
        at += count;
    }
    Ok(at)
}

/// Writes until all is taken. It fails where a write fails, and tries none again.
pub fn write_all<O: Sink>(sink: &mut O, bytes: &[u8]) -> Result<(), Failed>
    ensures whole { OnOk result (Gains bytes.now (O.view sink.old) (O.view sink.new)) }
    // Then a prefix was taken that isn't the whole.
    ensures part { OnErr result (GainsPart bytes.now (O.view sink.old) (O.view sink.new)) }
    // No write fails in a success, and one in a failure.
    ensures faults { CountsFault (O.view sink.old).faults (O.view sink.new).faults result }
    ensures nothing { length bytes.now ≡ 0 → sink.new ≡ sink.old }
{
    let mut at = 0;
    while at < bytes.len() {
        at += sink.write(&bytes[at..])?;
    }
    Ok(())
}
