//! Sources and sinks of bytes.

ghost use Rattle.std.specs.Io.{ReadsAtMost, WritesAtMost};
ghost use Rattle.std.specs.Io.KnownBytes.{ReadConsumes, WriteAppends};
ghost use Rattle.bp_io.specs.Causes.{HasCause};
ghost use Rattle.bp_io.specs.Streams.{TakesSome};
ghost use Rattle.bp_io.specs.Views.{SinkView, SourceView};

use crate::Failed;

/// A source of bytes, in order, each of them once.
pub trait Source {
    /// The bytes that are left, and how often the source has failed.
    ghost view: { Self → SourceView };

    /// Reads the next bytes into the first places of `into`, and returns their number, at most `into.len()`.
    ///
    /// If `into` is not empty, the result is 0 exactly if no byte is left. The contents of `into` after those bytes
    /// are unspecified.
    ///
    /// # Errors
    ///
    /// `Failed`: the environment failed in this call, and the count of faults rose. Nothing was read, so the bytes
    /// that are left are as before. The contents of `into` are unspecified.
    fn read(&mut self, into: &mut [u8]) -> Result<usize, Failed>
        ensures bound { ReadsAtMost result into.new }
        ensures bytes { ReadConsumes (view self.old).left (view self.new).left result into.new }
        ensures cause { HasCause (view self.old).faults (view self.new).faults result };
}

/// A sink of bytes, in order.
pub trait Sink {
    /// The bytes that the sink took, and how often it has failed.
    ghost view: { Self → SinkView };

    /// Takes the first bytes of `piece`, and returns their number: at least one if `piece` is not empty, and at most
    /// `piece.len()`.
    ///
    /// # Errors
    ///
    /// `Failed`: the environment failed in this call, and the count of faults rose. Nothing was taken.
    fn write(&mut self, piece: &[u8]) -> Result<usize, Failed>
        ensures bound { WritesAtMost result piece.now }
        ensures some { TakesSome result piece.now }
        ensures bytes { WriteAppends (view self.old).taken (view self.new).taken result piece.now }
        ensures cause { HasCause (view self.old).faults (view self.new).faults result };
}
