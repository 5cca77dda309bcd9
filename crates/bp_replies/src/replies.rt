//! Lines on their way to a sink.

ghost use Rattle.std.specs.Prelude.{◌+◌, ◌≡◌, ◌≤◌, IfOk, [], length, vec_len};
ghost use Rattle.bp_limits.specs.Limits.{max_text};
ghost use Rattle.bp_replies.specs.Room.{gathered_size};

use crate::send::send;
use bp_io::{Failed, Sink};
use bp_limits::MAX_TEXT;
use bp_script::{Said, say};
use std::alloc::{AllocError, Global};

/// The number of bytes of lines that may wait while more follow, before they go to the sink.
pub const GATHERED: usize = 65_536;

/// Lines that were written and that a sink has not taken yet, in order. There is always room for one more line.
#[derive(Drop)]
pub struct Replies {
    bytes: Vec<u8>,
    count: usize,
    ghost room: { vec_len bytes ≡ gathered_size + max_text },
    ghost fits: { count ≤ vec_len bytes },
}

impl Replies {
    ghost use Rattle.std.specs.Prelude.{◌++◌, OnErr, OnOk};
    ghost use Rattle.std.specs.Io.KnownBytes.{Appends};
    ghost use Rattle.bp_io.specs.Causes.{HasCause};
    ghost use Rattle.bp_script.specs.Sayings.{said_text, FitsReply};
    ghost use Rattle.bp_replies.specs.Gathering.{PassesOn, waiting};
    ghost use Rattle.bp_replies.specs.Taking.{TakesPart};

    /// Makes a buffer in which no line waits.
    ///
    /// # Errors
    ///
    /// * `AllocError`: allocation fails.
    pub fn new(alloc: Global) -> Result<Self, AllocError>
        ensures { IfOk result (λ replies. waiting replies ≡ []) }
    {
        Ok(Replies {
            bytes: vec![in alloc; 0; GATHERED + MAX_TEXT]?,
            count: 0,
        })
    }

    /// Drops the waiting lines.
    pub fn clear(&mut self)
        ensures { waiting self.new ≡ [] }
    {
        self.count = 0;
    }

    /// Passes all waiting lines to a sink. Nothing waits afterwards.
    ///
    /// # Errors
    ///
    /// * `Failed`: the sink failed. It took a proper prefix, and the rest is dropped.
    pub fn hand_over<K: Sink>(&mut self, out: &mut K) -> Result<(), Failed>
        ensures all { OnOk result (Appends (K.view out.old).taken (K.view out.new).taken (waiting self.old)) }
        ensures some { OnErr result (TakesPart (waiting self.old) (K.view out.old).taken (K.view out.new).taken) }
        ensures none { waiting self.new ≡ [] }
        ensures cause { HasCause (K.view out.old).faults (K.view out.new).faults result }
    {
        let count = self.count;
        self.count = 0;
        send(out, &self.bytes[..count])
    }

    /// Passes the waiting lines to a sink, if they have more than `most` bytes.
    ///
    /// # Errors
    ///
    /// As of `hand_over`.
    pub fn hand_over_above<K: Sink>(&mut self, most: usize, out: &mut K) -> Result<(), Failed>
        ensures all { OnOk result (PassesOn [] (waiting self.old) (waiting self.new)
            (K.view out.old).taken (K.view out.new).taken) }
        ensures some { OnErr result (TakesPart (waiting self.old) (K.view out.old).taken (K.view out.new).taken) }
        ensures few { OnOk result (length (waiting self.new) ≤ most) }
        ensures none { OnErr result (waiting self.new ≡ []) }
        ensures cause { HasCause (K.view out.old).faults (K.view out.new).faults result }
    {
        if self.count > most {
            return self.hand_over(out);
        }
        Ok(())
    }

    /// Adds a line, for which there is room.
    fn add(&mut self, said: &Said<'_>)
        requires room { length (waiting self.old) ≤ gathered_size }
        requires short { FitsReply said.now }
        ensures { waiting self.new ≡ waiting self.old ++ said_text said.now }
    {
        self.count += say(said, &mut self.bytes[self.count..]);
    }

    /// Adds a line. The lines that waited before go to the sink first, if they have more than `GATHERED` bytes.
    ///
    /// # Errors
    ///
    /// * `Failed`: the sink failed. It took a proper prefix of the lines that waited, the rest is dropped, and the
    ///   line is not added.
    pub fn report<K: Sink>(&mut self, said: &Said<'_>, out: &mut K) -> Result<(), Failed>
        requires { FitsReply said.now }
        ensures all { OnOk result (PassesOn (said_text said.now) (waiting self.old) (waiting self.new)
            (K.view out.old).taken (K.view out.new).taken) }
        ensures some { OnErr result (TakesPart (waiting self.old ++ said_text said.now)
            (K.view out.old).taken (K.view out.new).taken) }
        ensures none { OnErr result (waiting self.new ≡ []) }
        ensures cause { HasCause (K.view out.old).faults (K.view out.new).faults result }
    {
        self.hand_over_above(GATHERED, out)?;
        self.add(said);
        Ok(())
    }
}
