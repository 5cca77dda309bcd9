//! The lines of replies.

ghost use Rattle.bp_limits.specs.Limits.{max_read, max_text};
ghost use Rattle.bp_limits.specs.CallLimits.{max_name};
ghost use Rattle.bp_plain.specs.Seen.{refusal_of};
ghost use Rattle.bp_plain.specs.SeenAnswers.{answer_seen};
ghost use Rattle.bp_script.specs.Sayings.{FitsReply, IsLine, said_text};
ghost use Rattle.bp_script.specs.Texts.{answer_text, data_text, entry_text, is_escaped, kept_text, kind_letter, log_text, name_text, refusal_text};
ghost use Rattle.std.specs.Prelude.{IsTrue, codes, drop, length, take, ◌*◌, ◌+◌, ◌++◌, ◌≡◌, ◌≤◌};

use crate::calls::say_call;
use crate::pieces::{put, put_digits, put_escaped, write_pair, write_pieces};
use bp_layout::Kind;
use bp_plain::{Answer, Call, FsError};
use percent_encoding::{AsciiSet, CONTROLS, ascii_set};

/// The bytes of ASCII that the text of a name escapes: control bytes, the space, `%` and `/`.
const ESCAPED: AsciiSet = ascii_set!(CONTROLS.add(b' ').add(b'%').add(b'/'));

/// A line that the program writes: of a reply, or one that asks for a call.
#[derive(Clone, Copy)]
pub enum Said<'a> {
    /// The answer of a call, except a listing, which has a line for each name.
    Answer(Answer<'a>),
    /// An entry of a directory.
    Name {
        /// The kind of the file or directory that the entry refers to.
        kind: Kind,
        /// The bytes of the name.
        name: &'a [u8],
    },
    /// The end of a listing.
    End,
    /// All calls so far are durable.
    Synced,
    /// The numbers of free and of live blocks.
    Space {
        /// The number of free blocks.
        free: u32,
        /// The number of blocks in use, without the first.
        live: u32,
    },
    /// A crash kept some of the calls that were not durable.
    Kept {
        /// The number of calls that it kept.
        c: usize,
        /// The number of calls that were not durable.
        n: usize,
    },
    /// The length of the log.
    Log {
        /// The number of its events.
        events: usize,
        /// The number of its barriers.
        barriers: usize,
        /// The number of calls that are not durable.
        calls: usize,
    },
    /// The line is not in the table of commands.
    Syntax,
    /// The line had too many bytes.
    LongLine,
    /// The log does not allow such a crash.
    BadChoice,
    /// The line that asks for a call of an export.
    Call(Call<'a>),
}

/// Writes a line with its newline to the beginning of `into`, and returns its length in bytes.
pub fn say(said: &Said<'_>, into: &mut [u8]) -> usize
    requires room { max_text ≤ length into.old }
    requires short { FitsReply said.now }
    ensures prefix { take result into.new ≡ said_text said.now }
    ensures whole { into.new ≡ said_text said.now ++ drop result into.old }
    ensures len { result ≡ length (said_text said.now) }
    ensures fits { result ≤ length into.new }
{
    match *said {
        Said::Answer(answer) => say_answer(answer, into),
        Said::Name { kind, name } => say_name(kind, name, into),
        Said::End => write_pieces(into, &[b"end\n"]),
        Said::Synced => write_pieces(into, &[b"ok\n"]),
        Said::Space { free, live } => write_pair(into, b"space ", free as u64, live as u64),
        Said::Kept { c, n } => say_kept(c, n, into),
        Said::Log {
            events,
            barriers,
            calls,
        } => say_log(events, barriers, calls, into),
        Said::Syntax => write_pieces(into, &[b"err 20 syntax\n"]),
        Said::LongLine => write_pieces(into, &[b"err 21 line\n"]),
        Said::BadChoice => write_pieces(into, &[b"err 23 choice\n"]),
        Said::Call(call) => say_call(&call, into),
    }
}

/// Writes the line of a crash.
fn say_kept(count: usize, total: usize, into: &mut [u8]) -> usize
    requires { max_text ≤ length into.old }
    ensures whole { into.new ≡ kept_text count total ++ drop result into.old }
    ensures len { result ≡ length (kept_text count total) }
{
    let mut kept = itoa::Buffer::new();
    let mut all = itoa::Buffer::new();
    write_pieces(
        into,
        &[
            b"kept ",
            kept.format(count).as_bytes(),
            b" of ",
            all.format(total).as_bytes(),
            b"\n",
        ],
    )
}

/// Writes the line with the length of the log.
fn say_log(events: usize, barriers: usize, calls: usize, into: &mut [u8]) -> usize
    requires { max_text ≤ length into.old }
    ensures whole { into.new ≡ log_text events barriers calls ++ drop result into.old }
    ensures len { result ≡ length (log_text events barriers calls) }
{
    let mut event_digits = itoa::Buffer::new();
    let mut barrier_digits = itoa::Buffer::new();
    let mut call_digits = itoa::Buffer::new();
    write_pieces(
        into,
        &[
            b"log ",
            event_digits.format(events).as_bytes(),
            b" ",
            barrier_digits.format(barriers).as_bytes(),
            b" ",
            call_digits.format(calls).as_bytes(),
            b"\n",
        ],
    )
}

/// Writes the line of an answer.
fn say_answer(answer: Answer<'_>, into: &mut [u8]) -> usize
    requires room { max_text ≤ length into.old }
    requires short { IsLine answer }
    ensures whole { into.new ≡ answer_text (answer_seen answer.entry) ++ drop result into.old }
    ensures len { result ≡ length (answer_text (answer_seen answer.entry)) }
{
    match answer {
        Answer::Done => write_pieces(into, &[b"ok\n"]),
        Answer::Bytes(content) => say_bytes(content, into),
        Answer::FileOf(size) => {
            let mut digits = itoa::Buffer::new();
            write_pieces(into, &[b"file ", digits.format(size).as_bytes(), b"\n"])
        }
        Answer::DirOf(count) => {
            let mut digits = itoa::Buffer::new();
            write_pieces(into, &[b"dir ", digits.format(count).as_bytes(), b"\n"])
        }
        Answer::Names(_) => unreachable!(),
        Answer::LinksOf(count) => {
            let mut digits = itoa::Buffer::new();
            write_pieces(into, &[b"links ", digits.format(count).as_bytes(), b"\n"])
        }
        Answer::AttributeOf(value) => {
            let mut digits = itoa::Buffer::new();
            write_pieces(into, &[b"attr ", digits.format(value).as_bytes(), b"\n"])
        }
        Answer::Refused(error) => say_refused(error, into),
    }
}

/// Writes the line of a refusal.
fn say_refused(error: FsError, into: &mut [u8]) -> usize
    requires { max_text ≤ length into.old }
    ensures whole { into.new ≡ refusal_text (refusal_of error) ++ drop result into.old }
    ensures len { result ≡ length (refusal_text (refusal_of error)) }
{
    let mut number = itoa::Buffer::new();
    let number = number.format(error.number()).as_bytes();
    let word = error.word().as_bytes();
    match error {
        FsError::NoSpace { need, free } => {
            let mut needed = itoa::Buffer::new();
            let mut left = itoa::Buffer::new();
            write_pieces(
                into,
                &[
                    b"err ",
                    number,
                    b" ",
                    word,
                    b" ",
                    needed.format(need).as_bytes(),
                    b" ",
                    left.format(free).as_bytes(),
                    b"\n",
                ],
            )
        }
        _ => write_pieces(into, &[b"err ", number, b" ", word, b"\n"]),
    }
}

/// Writes the line of an entry.
#[tactic(auto, using(crate::proofs::NameText::name_text_fits))]
fn say_name(kind: Kind, name: &[u8], into: &mut [u8]) -> usize
    requires room { max_text ≤ length into.old }
    requires short { length name.now ≤ max_name }
    ensures whole { into.new ≡ entry_text (kind, name.now) ++ drop result into.old }
    ensures len { result ≡ length (entry_text (kind, name.now)) }
{
    let end = put(into, 0, name_prefix(kind).as_bytes());
    let end = put_name(into, end, name);
    put(into, end, b"\n")
}

/// Returns the text before the name in the line of an entry.
fn name_prefix(kind: Kind) -> &'static str
    ensures { result.now ≡ codes "entry " ++ kind_letter kind ++ codes " " }
{
    match kind {
        Kind::File => "entry f ",
        Kind::Dir => "entry d ",
    }
}

/// Writes the text of a name at an offset of a buffer, and returns its end.
fn put_name(into: &mut [u8], at: usize, name: &[u8]) -> usize
    requires { at + length (name_text name.now) ≤ length into.old }
    ensures text { into.new ≡
        take at into.old ++ name_text name.now ++ drop (at + length (name_text name.now)) into.old }
    ensures end { result ≡ at + length (name_text name.now) }
{
    // Few names have a byte to escape, and the others are copied at once.
    if is_plain(name) {
        put(into, at, name)
    } else {
        put_escaped(into, at, name, ESCAPED)
    }
}

/// Whether a name has no byte to escape. All bytes are examined, so that many can be examined at once.
fn is_plain(name: &[u8]) -> bool
    ensures { IsTrue result → name_text name.now ≡ name.now }
{
    let mut plain = true;
    for byte in name {
        plain &= !is_escaped(*byte);
    }
    plain
}

/// Whether a byte of a name is escaped.
fn is_escaped(byte: u8) -> bool
    ensures { result ≡ is_escaped byte }
{
    (byte <= b' ') | (byte >= 127) | (byte == b'%') | (byte == b'/')
}

/// Writes the line with bytes of a file.
fn say_bytes(content: &[u8], into: &mut [u8]) -> usize
    requires room { max_text ≤ length into.old }
    requires short { length content.now ≤ max_read }
    ensures whole { into.new ≡ data_text content.now ++ drop result into.old }
    ensures len { result ≡ length (data_text content.now) }
{
    if content.is_empty() {
        return write_pieces(into, &[b"data -\n"]);
    }
    let end = put(into, 0, b"data ");
    let end = put_digits(into, end, content);
    put(into, end, b"\n")
}
