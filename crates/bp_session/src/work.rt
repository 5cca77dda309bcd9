//! The memory of a run, allocated once.

ghost use Rattle.bp_script.specs.Lines.{decoded_room};
ghost use Rattle.std.specs.Prelude.{◌+◌, ◌≡◌, ◌≤◌, IfOk, [], vec_capacity, vec_len};
ghost use Rattle.bp_limits.specs.Limits.{log_events, max_line, max_mask};
ghost use Rattle.bp_session.specs.Pieces.{piece_size};

use crate::caches::TwoCaches;
use bp_limits::{LOG_EVENTS, MAX_LINE, MAX_MASK};
use bp_plain::Reply;
use bp_replies::Replies;
use bp_script::Decoded;
use pm_epochs::Choice;
use pm_steps::Backs;
use std::alloc::{AllocError, Global};

/// The greatest number of bytes of a read.
const PIECE: usize = 65_536;

/// A line, of which at most one byte more than the longest allowed is kept, and the memory needed to answer it.
#[derive(Drop)]
pub struct LineBuffers {
    pub(crate) line: Vec<u8>,
    pub(crate) decoded: Decoded,
    pub(crate) reply: Reply,
    pub(crate) replies: Replies,
    pub(crate) choice: Choice,
    pub(crate) backs: Backs,
    // Allocated at the first line that asks for it: 8 bytes for each word of the region, and about 32 MiB for the log
    // of the caches.
    pub(crate) caches: Option<TwoCaches>,
    ghost room: { max_line + 1 ≤ vec_capacity line },
    ghost fits: { vec_len line ≤ max_line + 1 },
    ghost decodes: { max_line ≤ decoded_room decoded },
    ghost chooses: { choice.room ≡ max_mask },
    ghost storms: { backs.room ≡ log_events },
}

impl LineBuffers {
    ghost use Rattle.bp_session.specs.Work.{answer_in, line_in, line_of, waiting_in};
    ghost use Rattle.std.specs.Prelude.{◌++◌, take, option_map};

    /// Allocates memory for lines of 2,200,000 bytes, with the empty line in it. Fails only if memory lacks.
    pub fn new(alloc: Global) -> Result<Self, AllocError>
        ensures { IfOk result (λ buffers. line_in buffers ≡ []) }
    {
        Ok(LineBuffers {
            line: Vec::with_capacity(alloc, MAX_LINE + 1)?,
            decoded: Decoded::new(alloc, MAX_LINE)?,
            reply: Reply::new(alloc)?,
            replies: Replies::new(alloc)?,
            choice: Choice::new(alloc, MAX_MASK)?,
            backs: Backs::new(alloc, LOG_EVENTS)?,
            caches: None,
        })
    }

    /// Sets the line. Of a line above the limit only the fact that it is too long is kept.
    pub fn set_line(&mut self, bytes: &[u8])
        ensures line { line_in self.new ≡ take (max_line + 1) bytes.now }
        ensures answer { answer_in self.new ≡ answer_in self.old }
    {
        self.line.clear();
        self.add(bytes);
    }

    /// Adds bytes to the line. Of a line above the limit only the fact that it is too long is kept.
    pub(crate) fn add(&mut self, bytes: &[u8])
        ensures line { line_in self.new ≡ take (max_line + 1) (line_in self.old ++ bytes.now) }
        ensures answer { answer_in self.new ≡ answer_in self.old }
        ensures waiting { waiting_in self.new ≡ waiting_in self.old }
    {
        let kept = bytes.len().min(MAX_LINE + 1 - self.line.len());
        match self.line.extend_from_slice(&bytes[..kept]) {
            Ok(()) => {}
            Err(_) => unreachable!(),
        }
    }

    /// Returns the line, if it is not too long.
    pub fn line(&self) -> Option<&[u8]>
        ensures { option_map (λ bytes. bytes.now) result ≡ line_of (line_in self.now) }
    {
        if self.line.len() <= MAX_LINE {
            Some(&self.line)
        } else {
            None
        }
    }

    /// Returns the answer of the last call.
    pub fn reply(&self) -> &Reply
        ensures { result.now.answer ≡ answer_in self.now }
    {
        &self.reply
    }
}

/// A line as far as it was read, a piece of the source, and the memory needed to answer a line. Serving allocates no
/// other memory, except for listings, and for the caches of the first line that asks for them.
#[derive(Drop)]
pub struct Work {
    pub(crate) buffers: LineBuffers,
    pub(crate) piece: Vec<u8>,
    ghost whole: { vec_len piece ≡ piece_size },
}

impl Work {
    ghost use Rattle.bp_session.specs.Work.{held_line, line_of};
    ghost use Rattle.std.specs.Prelude.{take, option_map};

    /// Allocates memory for lines of 2,200,000 bytes, with the empty line in it. Fails only if memory lacks.
    pub fn new(alloc: Global) -> Result<Self, AllocError>
        ensures { IfOk result (λ work. held_line work ≡ []) }
    {
        Ok(Work {
            buffers: LineBuffers::new(alloc)?,
            piece: vec![in alloc; 0; PIECE]?,
        })
    }

    /// Sets the line. Of a line above the limit only the fact that it is too long is kept.
    pub fn set_line(&mut self, bytes: &[u8])
        ensures { held_line self.new ≡ take (max_line + 1) bytes.now }
    {
        self.buffers.set_line(bytes);
    }

    /// Returns the line, if it is not too long.
    pub fn line(&self) -> Option<&[u8]>
        ensures { option_map (λ bytes. bytes.now) result ≡ line_of (held_line self.now) }
    {
        self.buffers.line()
    }
}
