//! Readers and writers of std as sources and sinks.

ghost use Rattle.std.specs.Prelude.{◌≡◌};
ghost use Rattle.std.specs.Io.{ReadsAtMost, WritesAtMost};
ghost use Rattle.std.specs.Io.KnownBytes.{ReadConsumes, WriteAppends};

use crate::system_faults::SystemFaults;
use bp_io::{Failed, Sink, Source};
use std::io;
use std::io::{ErrorKind, Read, Write};

/// A reader of std as a source, such as standard input or a file. Its bytes are known if those of the reader are.
/// Those of standard input and of files are not; that their bytes come in order is trusted, and tested.
#[derive(Drop)]
pub struct StdSource<R: Read> {
    reader: R,
    faults: SystemFaults,
}

impl<R: Read> StdSource<R> {
    /// Makes a source over this reader, from its current position.
    pub fn new(reader: R) -> Self
        ensures left { (⟦<StdSource<R> as Source>⟧.view result).left ≡ R.remaining reader }
        ensures faults { (⟦<StdSource<R> as Source>⟧.view result).faults ≡ 0 }
    {
        StdSource {
            reader,
            faults: SystemFaults::none(),
        }
    }

    /// Returns the last error of the system, if there was one.
    pub fn last_error(&self) -> Option<io::Error> {
        self.faults.last
    }
}

/// Returns the first result that is not an interruption by a signal.
fn read_retrying<R: Read>(reader: &mut R, into: &mut [u8]) -> io::Result<usize>
    ensures bound { ReadsAtMost result into.new }
    ensures bytes { ReadConsumes (R.remaining reader.old) (R.remaining reader.new) result into.new }
{
    for _tries in 1..u64::MAX {
        match reader.read(into) {
            Err(e) if e.kind() == ErrorKind::Interrupted => {}
            answer => return answer,
        }
    }
    reader.read(into)
}

/// Each call reads once from the reader, and again if a signal interrupted the read. Every other error of the reader
/// is a fault.
impl<R: Read> Source for StdSource<R> {
    ghost view = { λ s. record { left = R.remaining s.reader; faults = s.faults.count } };

    fn read(&mut self, into: &mut [u8]) -> Result<usize, Failed> {
        match read_retrying(&mut self.reader, into) {
            Ok(count) => Ok(count),
            Err(error) => Err(self.faults.raise(error)),
        }
    }
}

/// A writer of std as a sink, such as standard output or a file. Its bytes are known if those of the writer are. Those
/// of standard output and of files are not; that all bytes go there is trusted, and tested.
#[derive(Drop)]
pub struct StdSink<W: Write> {
    writer: W,
    faults: SystemFaults,
}

impl<W: Write> StdSink<W> {
    /// Makes a sink over this writer, from its current position.
    pub fn new(writer: W) -> Self
        ensures taken { (⟦<StdSink<W> as Sink>⟧.view result).taken ≡ W.contents writer }
        ensures faults { (⟦<StdSink<W> as Sink>⟧.view result).faults ≡ 0 }
    {
        StdSink {
            writer,
            faults: SystemFaults::none(),
        }
    }

    /// Returns the last error of the system, if there was one.
    pub fn last_error(&self) -> Option<io::Error> {
        self.faults.last
    }
}

/// Returns the first result that is not an interruption by a signal.
fn write_retrying<W: Write>(writer: &mut W, piece: &[u8]) -> io::Result<usize>
    ensures bound { WritesAtMost result piece.now }
    ensures bytes { WriteAppends (W.contents writer.old) (W.contents writer.new) result piece.now }
{
    for _tries in 1..u64::MAX {
        match writer.write(piece) {
            Err(e) if e.kind() == ErrorKind::Interrupted => {}
            answer => return answer,
        }
    }
    writer.write(piece)
}

/// Each call writes once to the writer, and again if a signal interrupted the write. Every other error of the writer
/// is a fault, and so is a write that takes no byte of a piece that is not empty.
impl<W: Write> Sink for StdSink<W> {
    ghost view = { λ s. record { taken = W.contents s.writer; faults = s.faults.count } };

    fn write(&mut self, piece: &[u8]) -> Result<usize, Failed> {
        match write_retrying(&mut self.writer, piece) {
            Ok(count) if count > 0 || piece.is_empty() => Ok(count),
            Ok(_) => Err(self.faults.raise(ErrorKind::WriteZero.into())),
            Err(error) => Err(self.faults.raise(error)),
        }
    }
}
