//! The answers of calls.

ghost use Rattle.bp_limits.specs.Limits.{max_read};
ghost use Rattle.bp_plain.specs.Calls.Answer.{attribute_of, bytes, dir_of, done, file_of, links_of, names, refused};
ghost use Rattle.bp_plain.specs.Seen.{refusal_of};
ghost use Rattle.std.specs.Prelude.{IfOk, length, take, ◌≡◌, ◌≤◌};

use crate::errors::FsError;
use bp_layout::Listing;
use bp_limits::MAX_READ;
use std::alloc::{AllocError, Global};
use std::marker::Model;

/// Answer of a call.
#[derive(Clone, Copy)]
pub enum Answer<'a> {
    /// The call was carried out and returns no value.
    Done,
    /// Bytes of a file.
    Bytes(&'a [u8]),
    /// A file, with its size in bytes.
    FileOf(u64),
    /// A directory, with the number of names in it.
    DirOf(u64),
    /// The names in a directory, in the order of their bytes.
    Names(&'a Listing),
    /// A file, with the number of its paths.
    LinksOf(u32),
    /// The value of an attribute.
    AttributeOf(u64),
    /// The call was refused, and has changed nothing.
    Refused(FsError),
}

/// An answer as a reply holds it. The bytes of an answer are the first ones of the buffer; `Held` has their number.
#[derive(Drop)]
enum Held {
    Done,
    Bytes(usize),
    FileOf(u64),
    DirOf(u64),
    Names(Listing),
    LinksOf(u32),
    AttributeOf(u64),
    Refused(FsError),
}

/// Answer of a call, with the memory that it needs.
#[derive(Drop)]
pub struct Reply {
    held: Held,
    buffer: Vec<u8>,
}

impl Model for Reply {
    ghost use Rattle.bp_plain.specs.ReplyView.{ReplyView};

    ghost Value = { ReplyView };

    ghost use Rattle.bp_plain.specs.SeenAnswers.{FitsBuffer, reply_seen};

    ghost view = { reply_seen };

    // The buffer has its full size from the start, so no later call allocates it.
    ghost invariant = { FitsBuffer };
}

impl Reply {
    ghost use Rattle.bp_plain.specs.ReplyView.{lent_out};
    ghost use Rattle.bp_plain.specs.SeenAnswers.{IsShortAnswer, answer_seen};
    ghost use Rattle.bp_plain.specs.contracts.replies.Reply.{the_row};
    ghost use Rattle.std.specs.Borrow.{Array, Lends, sem, u8 as byte};

    /// Makes a reply with a buffer that is large enough for every answer. The first answer is `done`.
    pub fn new(alloc: Global) -> Result<Reply, AllocError>
        ensures { IfOk result (λ reply. reply.answer ≡ done) }
    {
        let buffer = vec![in alloc; 0u8; MAX_READ]?;
        Ok(Reply {
            held: Held::Done,
            buffer,
        })
    }

    /// Returns the answer of the last call that used this reply; at first, `done`.
    pub fn answer(&self) -> Answer<'_>
        ensures seen { answer_seen result ≡ self.now.answer }
        ensures short { IsShortAnswer result }
    {
        match &self.held {
            Held::Done => Answer::Done,
            Held::Bytes(count) => Answer::Bytes(&self.buffer[..*count]),
            Held::FileOf(size) => Answer::FileOf(*size),
            Held::DirOf(count) => Answer::DirOf(*count),
            Held::Names(listing) => Answer::Names(listing),
            Held::LinksOf(count) => Answer::LinksOf(*count),
            Held::AttributeOf(value) => Answer::AttributeOf(*value),
            Held::Refused(error) => Answer::Refused(*error),
        }
    }

    /// Lends the 65,536 bytes of the buffer for writing. The answer is then `done`.
    pub fn buffer(&mut self) -> &mut [u8]
        ensures* lends { sem 𝓛 (Lends the_row (Array byte 0) self.entry result (lent_out self.old)) }
        ensures bytes { result.now ≡ self.old.buffer }
        ensures len { length result.now ≡ max_read }
    {
        self.set_done();
        self.buffer.as_mut_slice()
    }

    /// Sets the answer to `done`: the call was carried out.
    pub fn set_done(&mut self)
        ensures answer { self.new.answer ≡ done }
        ensures buffer { self.new.buffer ≡ self.old.buffer }
    {
        self.held = Held::Done;
    }

    /// Sets the answer to a file's size in bytes.
    pub fn set_file(&mut self, size: u64)
        ensures answer { self.new.answer ≡ file_of size }
        ensures buffer { self.new.buffer ≡ self.old.buffer }
    {
        self.held = Held::FileOf(size);
    }

    /// Sets the answer to the number of names in a directory.
    pub fn set_dir(&mut self, count: u64)
        ensures answer { self.new.answer ≡ dir_of count }
        ensures buffer { self.new.buffer ≡ self.old.buffer }
    {
        self.held = Held::DirOf(count);
    }

    /// Sets the answer to the names in a directory.
    pub fn set_names(&mut self, listing: Listing)
        ensures answer { self.new.answer ≡ names listing }
        ensures buffer { self.new.buffer ≡ self.old.buffer }
    {
        self.held = Held::Names(listing);
    }

    /// Sets the answer to the number of paths of a file.
    pub fn set_links(&mut self, count: u32)
        ensures answer { self.new.answer ≡ links_of count }
        ensures buffer { self.new.buffer ≡ self.old.buffer }
    {
        self.held = Held::LinksOf(count);
    }

    /// Sets the answer to the value of an attribute.
    pub fn set_attribute(&mut self, value: u64)
        ensures answer { self.new.answer ≡ attribute_of value }
        ensures buffer { self.new.buffer ≡ self.old.buffer }
    {
        self.held = Held::AttributeOf(value);
    }

    /// Sets the answer to a refusal.
    pub fn set_refused(&mut self, error: FsError)
        ensures answer { self.new.answer ≡ refused (refusal_of error) }
        ensures buffer { self.new.buffer ≡ self.old.buffer }
    {
        self.held = Held::Refused(error);
    }

    /// Sets the answer to the first `n` bytes of the buffer, at most 65,536.
    pub fn set_bytes(&mut self, n: usize)
        requires { n ≤ max_read }
        ensures answer { self.new.answer ≡ bytes (take n self.old.buffer) }
        ensures buffer { self.new.buffer ≡ self.old.buffer }
    {
        self.held = Held::Bytes(n);
    }
}
