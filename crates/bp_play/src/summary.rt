//! The outcome of a play.

ghost use Rattle.std.specs.Prelude.{◌≡◌, ◌≤◌, []};
ghost use Rattle.bp_limits.specs.Limits.{log_events};
ghost use Rattle.bp_plain.specs.Calls.Answer.{refused};
ghost use Rattle.bp_plain.specs.Seen.{refusal_of};
ghost use Rattle.bp_plain.specs.SeenAnswers.{answer_seen};
ghost use Rattle.bp_script.specs.Texts.LineReply.{answered, kept_of};

use bp_plain::{Answer, FsError};
use pm_epochs::Kept;

/// The outcome of a play.
#[derive(Clone, Copy, Debug, PartialEq, Eq)]
pub struct Summary {
    /// The number of operations that were answered without a refusal, without storms.
    pub ok: u64,
    /// The numbers of operations that were refused, by the number of the refusal less 1.
    pub refused: [u64; 12],
    /// The number of storms.
    pub crashes: u64,
    /// The number of calls that survived the storms.
    pub kept: u64,
    /// The number of calls of the log before the storms.
    pub of: u64,
}

impl Summary {
    ghost use Rattle.bp_play.specs.Summaries.{sums};
    ghost use Rattle.bp_play.specs.Counting.{CanCount, CountsReply};

    /// Makes the summary of a play without operations.
    pub(crate) fn new() -> Summary
        ensures { result ≡ sums [] }
    {
        Summary {
            ok: 0,
            refused: [0; 12],
            crashes: 0,
            kept: 0,
            of: 0,
        }
    }

    /// Counts the answer of a call.
    pub(crate) fn count_answer(&mut self, answer: &Answer<'_>)
        requires { CanCount self.old }
        ensures { CountsReply self.old (answered (answer_seen answer.now)) self.new }
    {
        match answer {
            Answer::Refused(error) => self.count_refusal(error),
            _ => self.ok += 1,
        }
    }

    /// Counts a refusal. Refusals that only calls on snapshots and batches return are not counted: no operation makes
    /// such a call.
    fn count_refusal(&mut self, error: &FsError)
        requires { CanCount self.old }
        ensures { CountsReply self.old (answered (refused (refusal_of error.now))) self.new }
    {
        let number = usize::from(error.number());
        if number <= self.refused.len() {
            self.refused[number - 1] += 1;
        }
    }

    /// Counts a storm and the calls that it kept.
    pub(crate) fn count_storm(&mut self, kept: Kept)
        requires room { CanCount self.old }
        requires kept { kept.c ≤ log_events }
        requires of { kept.n ≤ log_events }
        ensures { CountsReply self.old (kept_of kept.c kept.n) self.new }
    {
        self.crashes += 1;
        self.kept += kept.c as u64;
        self.of += kept.n as u64;
    }
}
