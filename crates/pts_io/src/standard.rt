//! Sources and sinks over the readers and writers of std.

ghost use Rattle.std.specs.Prelude.{◌≡◌, ◌<◌, ◌≤◌, None, length, IfOk, OnOk, OnErr};
ghost use Rattle.std.specs.Io.KnownBytes.{ReadConsumes, WriteAppends};
ghost use Rattle.pts_io.specs.Standard.{ReaderState, WriterState};
ghost use Rattle.pts_io.specs.Streams.{raised};

use crate::streams::{Failed, Sink, Source};
use std::io::{Read, Write};
use std::marker::Model;

/// A source over a reader of std. It tells no bytes, and each error of the reader is a fault.
#[derive(Debug, Drop)]
pub struct StdSource<R: Read> {
    reader: R,
    faults: u64,
}

impl<R: Read> Model for StdSource<R> {
    ghost Value = { ReaderState };

    ghost view = { λ s. record { left = R.remaining s.reader; faults = s.faults } };
}

impl<R: Read> StdSource<R> {
    /// A source over this reader, with no fault yet.
    pub fn new(reader: R) -> StdSource<R>
        ensures { result ≡ record { left = R.remaining reader; faults = 0 } }
    {
        StdSource { reader, faults: 0 }
    }
}

impl<R: Read> Source for StdSource<R> {
    ghost left = { λ _. None };

    ghost faults = { λ s. s.faults };

    /// Moves what one read of the reader gives. Fails where the reader does.
    fn next(&mut self, buf: &mut [u8]) -> Result<usize, Failed>
        ensures bound { IfOk result (λ n. n ≤ length buf.old) }
        ensures bytes { ReadConsumes self.old.left self.new.left result buf.new }
        ensures fault { OnErr result (self.new.faults ≡ raised self.old.faults) }
        ensures steady { OnOk result (self.new.faults ≡ self.old.faults) }
        ensures counts { self.old.faults ≤ self.new.faults }
    {
        match self.reader.read(buf) {
            Ok(n) => Ok(n),
            Err(_) => {
                self.faults = self.faults.saturating_add(1);
                Err(Failed)
            }
        }
    }
}

/// A sink over a writer of std. It tells no bytes, and each error of the writer is a fault, as is each write that takes nothing.
#[derive(Debug, Drop)]
pub struct StdSink<W: Write> {
    writer: W,
    faults: u64,
}

impl<W: Write> Model for StdSink<W> {
    ghost Value = { WriterState };

    ghost view = { λ s. record { written = W.contents s.writer; faults = s.faults } };
}

impl<W: Write> StdSink<W> {
    /// A sink over this writer, with no fault yet.
    pub fn new(writer: W) -> StdSink<W>
        ensures { result ≡ record { written = W.contents writer; faults = 0 } }
    {
        StdSink { writer, faults: 0 }
    }
}

impl<W: Write> Sink for StdSink<W> {
    ghost written = { λ _. None };

    ghost faults = { λ s. s.faults };

    /// Takes what one write of the writer takes, and does not flush. Fails where the writer does, and where it takes nothing.
    fn put(&mut self, piece: &[u8]) -> Result<usize, Failed>
        ensures progress { IfOk result (λ n. 0 < n) }
        ensures bound { IfOk result (λ n. n ≤ length piece.now) }
        ensures bytes { WriteAppends self.old.written self.new.written result piece.now }
        ensures fault { OnErr result (self.new.faults ≡ raised self.old.faults) }
        ensures steady { OnOk result (self.new.faults ≡ self.old.faults) }
        ensures counts { self.old.faults ≤ self.new.faults }
    {
        match self.writer.write(piece) {
            Ok(n) if n > 0 => Ok(n),
            _ => {
                self.faults = self.faults.saturating_add(1);
                Err(Failed)
            }
        }
    }
}
