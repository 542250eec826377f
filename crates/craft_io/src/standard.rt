// Sources and sinks over the readers and writers of std. A source tells the bytes that its reader tells.
ghost use Rattle.std.specs.Prelude.{◌≡◌, ◌≤◌, ◌<◌, ℕ, None, IfOk, OnErr, length, take};
ghost use Rattle.std.specs.Io.KnownBytes.{Appends};
ghost use Rattle.craft_io.specs.Causes.{CountsFault, most_count};

use crate::{Failed, Sink, Source};
use std::io::{Read, Write};

/// A source over a reader of std, as standard input. It tells the bytes still to come where the reader tells them, so
/// that a failed read can't be told as their end; standard input tells none. A read that the reader refuses is one
/// fault more, and isn't tried again.
#[derive(Drop)]
pub struct StdSource<R: Read + Drop> {
    reader: R,
    reads: u64,
    faults: u64,
    ghost counts: { (faults ≤ most_count) × (reads ≤ most_count) },
}

impl<R: Read + Drop> StdSource<R> {
    /// A source over this reader, which counts no read and no fault yet. Nothing is read.
    pub fn new(reader: R) -> StdSource<R>
        ensures reader { result.reader ≡ reader }
        ensures reads { result.reads ≡ 0 }
        ensures faults { result.faults ≡ 0 }
    {
        StdSource {
            reader,
            reads: 0,
            faults: 0,
        }
    }
}

impl<R: Read + Drop> Source for StdSource<R> {
    ghost view = { λ s. record { left = R.remaining s.reader; faults = s.faults; reads = s.reads } };

    fn read(&mut self, buf: &mut [u8]) -> Result<usize, Failed> {
        match self.reader.read(buf) {
            Ok(count) => {
                self.reads = self.reads.saturating_add(1);
                Ok(count)
            }
            Err(_) => {
                self.faults = self.faults.saturating_add(1);
                Err(Failed)
            }
        }
    }

    ghost counts = { λ s. s.counts };
}

/// A sink over a writer of std, as standard output. It flushes after each write. A write is one fault more where the
/// writer refuses it, takes nothing or can't be flushed after it, and isn't tried again. It tells none of its bytes,
/// since a writer may take some and then fail to be flushed.
#[derive(Drop)]
pub struct StdSink<W: Write + Drop> {
    writer: W,
    faults: u64,
    ghost count: { faults ≤ most_count },
}

impl<W: Write + Drop> StdSink<W> {
    /// A sink over this writer, which counts no fault yet. Nothing is written.
    pub fn new(writer: W) -> StdSink<W>
        ensures writer { result.writer ≡ writer }
        ensures faults { result.faults ≡ 0 }
    {
        StdSink { writer, faults: 0 }
    }
}

impl<W: Write + Drop> Sink for StdSink<W> {
    ghost view = { λ s. record { taken = None; faults = s.faults } };

    // A writer that takes nothing has failed, and so has one that can't be flushed.
    fn write(&mut self, piece: &[u8]) -> Result<usize, Failed>
        requires { 0 < length piece.now }
        ensures bound { IfOk result (λ n. (0 < n) × (n ≤ length piece.now)) }
        ensures faults { CountsFault self.old.faults self.new.faults result }
        // Where the writer tells its bytes, it has gained those that are said to be taken.
        ensures passed { IfOk result (λ n. Appends (W.contents self.old.writer) (W.contents self.new.writer) (take n piece.now)) }
        ensures lost { OnErr result ((n : ℕ) × Appends (W.contents self.old.writer) (W.contents self.new.writer) (take n piece.now)) }
    {
        if let Ok(count) = self.writer.write(piece)
            && count > 0
            && self.writer.flush().is_ok()
        {
            return Ok(count);
        }
        self.faults = self.faults.saturating_add(1);
        Err(Failed)
    }

    ghost counts = { λ s. s.count };
}
