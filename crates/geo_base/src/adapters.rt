//! The edge to std's readers and writers.
ghost use Rattle.std.specs.Prelude.{◌≡◌, ◌<◌, ◌≤◌, ℕ, length, take};
ghost use Rattle.std.specs.Prelude.{Err, IfOk, IfSome, IsErrOf, None, OnErr, OnOk};
ghost use Rattle.std.specs.Io.KnownBytes.{Appends, ReadConsumes};
ghost use Rattle.geo_base.specs.Devices.{HasRisen, count_up};

use crate::reading::{Failed, Source};
use crate::writing::{PutError, Sink};
use std::io::{Read, Write};

/// A source over a reader. As a source it tells no bytes; its `read` says what it takes of those
/// that the reader tells, and standard input tells none. Each error of the reader is a fault.
#[derive(Drop)]
pub struct ReaderSource<R> {
    reader: R,
    faults: u64,
}

impl<R: Read> ReaderSource<R> {
    /// A source that reads from `reader`.
    pub fn new(reader: R) -> ReaderSource<R>
        ensures { ⟦<ReaderSource<R> as Source>⟧.faults result ≡ 0 }
    {
        ReaderSource { reader, faults: 0 }
    }
}

impl<R: Read> Source for ReaderSource<R> {
    ghost left = { λ _. None };

    ghost faults = { λ s. s.faults };

    fn read(&mut self, buf: &mut [u8]) -> Result<usize, Failed>
        ensures within { IfOk result (λ n. n ≤ length buf.old) }
        ensures bytes { ReadConsumes (R.remaining self.old.reader) (R.remaining self.new.reader)
            result buf.new }
        ensures fault { OnErr result (HasRisen self.old.faults self.new.faults) }
        ensures faults { self.old.faults ≤ self.new.faults }
        ensures sound { OnOk result (self.new.faults ≡ self.old.faults) }
        ensures counted { OnErr result (self.new.faults ≡ count_up self.old.faults) }
    {
        match self.reader.read(buf) {
            Ok(count) => Ok(count),
            Err(_) => {
                self.faults = self.faults.saturating_add(1);
                Err(Failed)
            }
        }
    }
}

/// A sink over a writer. As a sink it tells no bytes; its `write` says what it adds to those that
/// the writer tells, and standard output tells none. It flushes after each write. Each error of the
/// writer is a fault, and so is a write that takes nothing of a nonempty piece; the writer may then
/// have taken the first bytes of the piece.
#[derive(Drop)]
pub struct WriterSink<W> {
    writer: W,
    faults: u64,
}

impl<W: Write> WriterSink<W> {
    /// A sink that writes to `writer`.
    pub fn new(writer: W) -> WriterSink<W>
        ensures { ⟦<WriterSink<W> as Sink>⟧.faults result ≡ 0 }
    {
        WriterSink { writer, faults: 0 }
    }

    // Writes and flushes, and answers how many bytes were taken, or `None` at a fault.
    fn write_through(&mut self, buf: &[u8]) -> Option<usize>
        ensures within { IfSome result (λ n. n ≤ length buf.now) }
        ensures some { 0 < length buf.now → IfSome result (λ n. 0 < n) }
        ensures bytes { IfSome result (λ n. Appends (W.contents self.old.writer)
            (W.contents self.new.writer) (take n buf.now)) }
        ensures part { (n : ℕ) × Appends (W.contents self.old.writer)
            (W.contents self.new.writer) (take n buf.now) }
        ensures faults { self.new.faults ≡ self.old.faults }
    {
        let count = self.writer.write(buf).ok()?;
        self.writer.flush().ok()?;
        if count == 0 && !buf.is_empty() {
            return None;
        }
        Some(count)
    }
}

impl<W: Write> Sink for WriterSink<W> {
    ghost held = { λ _. None };

    ghost faults = { λ s. s.faults };

    fn write(&mut self, buf: &[u8]) -> Result<usize, PutError>
        ensures within { IfOk result (λ n. n ≤ length buf.now) }
        ensures some { 0 < length buf.now → IfOk result (λ n. 0 < n) }
        ensures bytes { IfOk result (λ n. Appends (W.contents self.old.writer)
            (W.contents self.new.writer) (take n buf.now)) }
        ensures part { OnErr result ((n : ℕ) × Appends (W.contents self.old.writer)
            (W.contents self.new.writer) (take n buf.now)) }
        ensures fault { OnErr result (HasRisen self.old.faults self.new.faults) }
        ensures faults { self.old.faults ≤ self.new.faults }
        ensures sound { OnOk result (self.new.faults ≡ self.old.faults) }
        ensures counted { OnErr result (self.new.faults ≡ count_up self.old.faults) }
        ensures failed { OnErr result (result ≡ Err PutError.Failed) }
        ensures starved { IsErrOf result PutError.NoMemory → self.new.faults ≡ self.old.faults }
    {
        match self.write_through(buf) {
            Some(count) => Ok(count),
            None => {
                self.faults = self.faults.saturating_add(1);
                Err(PutError::Failed)
            }
        }
    }
}
