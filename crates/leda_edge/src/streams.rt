//! The real streams.
ghost use Rattle.std.specs.Prelude.{◌≡◌, ℕ, ◌<◌, List, length, None, IfOk};
ghost use Rattle.std.specs.Io.{ReadsAtMost, WritesAtMost};
ghost use Rattle.std.specs.Io.KnownBytes.{ReadConsumes, WriteAppends};
ghost use Rattle.leda_edge.specs.Causes.{HasCause};
ghost use Rattle.leda_edge.specs.Parts.{StaysTold};

use crate::sink::Sink;
use crate::source::{Failed, Source};
use std::io::{Read, Write};
use std::marker::Model;

/// A reader of std as a source. It tells nothing of its bytes, and counts each error of the reader.
#[derive(Drop)]
pub struct StdSource<R> {
    reader: R,
    failed_reads: u64,
}

impl<R> Model for StdSource<R> {
    ghost use Rattle.leda_edge.specs.Streams.{Counted};

    ghost Value = { Counted R };

    ghost view = { λ source. record { stream = source.reader; faults = source.failed_reads } };
}

impl<R: Read> StdSource<R> {
    pub fn new(reader: R) -> StdSource<R>
        ensures { result ≡ record { stream = reader; faults = 0 } }
    {
        StdSource {
            reader,
            failed_reads: 0,
        }
    }
}

impl<R: Read> Source for StdSource<R> {
    ghost left = { λ _. None };

    ghost faults = { λ source. source.faults };

    fn read(&mut self, buf: &mut [u8]) -> Result<usize, Failed>
        requires { 0 < length buf.old }
        ensures bound { ReadsAtMost result buf.new }
        ensures bytes { ReadConsumes None None result buf.new }
        ensures told { StaysTold {T = List ℕ} None None }
        ensures cause { HasCause self.old.faults self.new.faults result }

        // What is given is what the reader gave.
        ensures passed { ReadConsumes (R.remaining self.old.stream)
            (R.remaining self.new.stream) result buf.new }
    {
        match self.reader.read(buf) {
            Ok(count) => Ok(count),
            Err(_) => {
                self.failed_reads = self.failed_reads.saturating_add(1);
                Err(Failed)
            }
        }
    }
}

/// A writer of std as a sink. It tells nothing of its bytes, and counts each error of the writer
/// and each write that takes no byte.
#[derive(Drop)]
pub struct StdSink<W> {
    writer: W,
    failed_writes: u64,
}

impl<W> Model for StdSink<W> {
    ghost use Rattle.leda_edge.specs.Streams.{Counted};

    ghost Value = { Counted W };

    ghost view = { λ sink. record { stream = sink.writer; faults = sink.failed_writes } };
}

impl<W: Write> StdSink<W> {
    pub fn new(writer: W) -> StdSink<W>
        ensures { result ≡ record { stream = writer; faults = 0 } }
    {
        StdSink {
            writer,
            failed_writes: 0,
        }
    }
}

impl<W: Write> Sink for StdSink<W> {
    ghost held = { λ _. None };

    ghost faults = { λ sink. sink.faults };

    fn write(&mut self, piece: &[u8]) -> Result<usize, Failed>
        requires { 0 < length piece.now }
        ensures some { IfOk result (λ count. 0 < count) }
        ensures bound { WritesAtMost result piece.now }
        ensures bytes { WriteAppends None None result piece.now }
        ensures told { StaysTold {T = List ℕ} None None }
        ensures cause { HasCause self.old.faults self.new.faults result }

        // What is taken is what the writer took.
        ensures passed { WriteAppends (W.contents self.old.stream)
            (W.contents self.new.stream) result piece.now }
    {
        match self.writer.write(piece) {
            Ok(count) if 0 < count => Ok(count),
            _ => {
                self.failed_writes = self.failed_writes.saturating_add(1);
                Err(Failed)
            }
        }
    }
}
