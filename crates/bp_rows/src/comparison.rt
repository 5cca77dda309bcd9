//! Comparison of the replies of a run with those of a session over the abstract tree itself.

ghost use Rattle.bp_limits.specs.Limits.{log_events};
ghost use Rattle.bp_reference.specs.State.{trees_in};
ghost use Rattle.bp_script.specs.Sayings.{FitsReply};
ghost use Rattle.std.specs.Prelude.{◌≤◌};

use crate::show::put_short;
use bp_fs::FileSystem;
use bp_limits::{CALL_ROOM, MAX_TEXT, Version};
use bp_plain::{Answer, Plain, Reply};
use bp_reference::Reference;
use bp_script::{Said, say};
use bp_session::{LineBuffers, Outcome, act};
use pm_region::{ListRegion, Region};
use std::alloc::{AllocError, Global};

/// The beginnings of replies that a volume gives for lack of blocks or of memory. An abstract tree lacks neither.
const OWN_REPLIES: [&str; 2] = ["err 11 ", "err 12 "];

/// The beginnings of replies with numbers of blocks or of events, which the abstract tree does not determine.
const COUNTS: [&str; 2] = ["space ", "log "];

/// The words with which a line begins that crashes.
const CRASHES: [&str; 3] = ["crash ", "storm ", "cache "];

/// A call that changes nothing.
const IDLE: &str = "stat /";

/// The greatest number of calls that a crash of the abstract tree can lose: it keeps a tree for each.
const CALLS: usize = 64;

/// The number of events of a call in its log: a store, a barrier and an end-of-call marker.
const CALL_EVENTS: usize = 3;

/// The number of words of its region: one cache line.
const WORDS: usize = 8;

/// A file system that is the abstract tree, and the memory to serve lines over it.
#[derive(Drop)]
struct Asked {
    system: Reference,
    buffers: LineBuffers,
    ghost roomy: { (trees_in system).memory.capacity ≤ log_events },
}

impl Asked {
    fn new(alloc: Global, version: Version) -> Result<Asked, AllocError> {
        let buffers = LineBuffers::new(alloc)?;
        let tree = Plain::of(alloc, version)?;
        let words = vec![in alloc; 0; WORDS]?;
        let region = ListRegion::new(alloc, words, CALL_ROOM + CALL_EVENTS * CALLS)?;
        Ok(Asked {
            system: Reference::new(alloc, region, tree),
            buffers,
        })
    }

    /// Serves a line.
    fn serve(&mut self, alloc: Global, line: &str) -> Outcome {
        self.buffers.set_line(line.as_bytes());
        act(alloc, &mut self.system, &mut self.buffers)
    }

    /// Crashes so that the last calls are lost, as many as a volume lost. Returns false if the tree does not have them
    /// any more.
    fn lose(&mut self, alloc: Global, lost: usize) -> Result<bool, AllocError> {
        let calls = self.system.region().event_count() / CALL_EVENTS;
        let Some(kept) = calls.checked_sub(lost) else {
            return Ok(false);
        };
        let events = CALL_EVENTS * kept;
        let mut line = String::new(alloc);
        write!(line, "crash {events} {kept} -")?;
        Ok(matches!(self.serve(alloc, line.as_str()), Outcome::Kept { .. }))
    }
}

/// A session over the abstract tree, and the replies of a volume that were not compared yet.
#[derive(Drop)]
pub struct Comparison<'a> {
    asked: Asked,
    replies: &'a str,
    lines: u64,
}

/// Writes whether the replies to a script are those of a session over the abstract tree, which begins empty in a
/// version, or else the first line at which they differ. A line for which the volume lacks blocks or memory is
/// reported, and the abstract tree does not do it either. Where the volume crashed, the tree loses as many calls.
pub fn compare(
    alloc: Global,
    version: Version,
    script: &str,
    replies: &str,
    report: &mut String,
) -> Result<(), AllocError> {
    let mut comparison = Comparison::new(alloc, version, replies)?;
    comparison.take_all(alloc, script, report)
}

/// Splits a text into its first line and the rest.
fn first_line(text: &str) -> (&str, &str) {
    text.split_once('\n').unwrap_or((text, ""))
}

impl<'a> Comparison<'a> {
    /// Makes an empty abstract tree of a version, to compare with these replies.
    pub fn new(
        alloc: Global,
        version: Version,
        replies: &'a str,
    ) -> Result<Comparison<'a>, AllocError> {
        Ok(Comparison {
            asked: Asked::new(alloc, version)?,
            replies,
            lines: 0,
        })
    }

    /// Compares line by line, up to the first one that differs.
    fn take_all(
        &mut self,
        alloc: Global,
        script: &str,
        report: &mut String,
    ) -> Result<(), AllocError> {
        for line in script.lines() {
            if !self.take(alloc, line, report)? {
                return Ok(());
            }
        }
        self.finish(report)
    }

    /// Does a line, and compares its reply with the first of the replies. Returns false if they differ.
    fn take(&mut self, alloc: Global, line: &str, report: &mut String) -> Result<bool, AllocError> {
        self.lines = self.lines.saturating_add(1);
        let (reply, rest) = first_line(self.replies);
        if begins(reply, &OWN_REPLIES) {
            self.replies = rest;
            self.asked.serve(alloc, IDLE);
            write!(report, "  {reply}: ")?;
            put_short(report, line)?;
            return Ok(true);
        }
        if begins(line, &CRASHES) {
            self.replies = rest;
            return self.crash(alloc, line, reply, report);
        }
        let mut expected = String::new(alloc);
        self.answer(alloc, line, &mut expected)?;
        if begins(reply, &COUNTS) && begins(expected.as_str(), &COUNTS) {
            self.replies = rest;
            return Ok(true);
        }
        self.pass(line, expected.as_str(), report)
    }

    /// Crashes as the volume did by its reply. Returns false if the tree cannot.
    fn crash(
        &mut self,
        alloc: Global,
        line: &str,
        reply: &str,
        report: &mut String,
    ) -> Result<bool, AllocError> {
        let Some(lost) = lost_by(reply) else {
            return Ok(true);
        };
        if self.asked.lose(alloc, lost)? {
            return Ok(true);
        }
        self.differ(line, "", report)?;
        Ok(false)
    }

    /// Skips the reply to a line, if it is the expected one. Returns false if it is another.
    fn pass(
        &mut self,
        line: &str,
        expected: &str,
        report: &mut String,
    ) -> Result<bool, AllocError> {
        match self.replies.strip_prefix(expected) {
            Some(rest) => {
                self.replies = rest;
                Ok(true)
            }
            None => {
                self.differ(line, expected, report)?;
                Ok(false)
            }
        }
    }

    /// Ends the comparison after the last line.
    fn finish(&self, report: &mut String) -> Result<(), AllocError> {
        if !self.replies.is_empty() {
            return self.differ("", "", report);
        }
        let lines = self.lines;
        writeln!(report, "same as the plain tree in {lines} lines")
    }

    /// Writes the line at which the replies differ, and both replies.
    fn differ(&self, line: &str, expected: &str, report: &mut String) -> Result<(), AllocError> {
        report.push_str("differs from the plain tree at: ")?;
        put_short(report, line)?;
        report.push_str("  volume: ")?;
        put_short(report, first_line(self.replies).0)?;
        report.push_str("  plain: ")?;
        put_short(report, first_line(expected).0)
    }

    /// Does a line, and writes its reply.
    pub fn answer(
        &mut self,
        alloc: Global,
        line: &str,
        reported: &mut String,
    ) -> Result<(), AllocError> {
        match self.asked.serve(alloc, line) {
            Outcome::Answered => put_answer(alloc, self.asked.buffers.reply(), reported),
            Outcome::Synced => put_said(alloc, &Said::Synced, reported),
            Outcome::TooLong => put_said(alloc, &Said::LongLine, reported),
            Outcome::BadSyntax => put_said(alloc, &Said::Syntax, reported),
            Outcome::Counted { .. } => reported.push_str(COUNTS[0]),
            Outcome::Logged { .. } => reported.push_str(COUNTS[1]),
            Outcome::Kept { .. } | Outcome::BadChoice | Outcome::NoMemory => Ok(()),
        }
    }
}

/// Whether a text begins with one of these.
fn begins(text: &str, beginnings: &[&str]) -> bool {
    beginnings
        .iter()
        .any(|beginning| text.starts_with(*beginning))
}

/// Returns the number of calls that were lost by the reply to a crash, if it is one.
fn lost_by(reply: &str) -> Option<usize> {
    let (kept, total) = reply.strip_prefix("kept ")?.split_once(" of ")?;
    let kept: usize = kept.parse().ok()?;
    let total: usize = total.parse().ok()?;
    total.checked_sub(kept)
}

/// Writes an answer, each name of a listing on a line of its own.
fn put_answer(alloc: Global, reply: &Reply, reported: &mut String) -> Result<(), AllocError> {
    match reply.answer() {
        Answer::Names(listing) => {
            for i in 0..listing.len() {
                let (kind, name) = listing.at(i);
                put_said(alloc, &Said::Name { kind, name }, reported)?;
            }
            put_said(alloc, &Said::End, reported)
        }
        answer => put_said(alloc, &Said::Answer(answer), reported),
    }
}

/// Writes a line of a reply.
fn put_said(alloc: Global, said: &Said<'_>, reported: &mut String) -> Result<(), AllocError>
    requires { FitsReply said.now }
{
    let mut text = vec![in alloc; 0u8; MAX_TEXT]?;
    let count = say(said, &mut text);
    reported.push_str(str::from_utf8(&text[..count]).unwrap_or(""))
}
