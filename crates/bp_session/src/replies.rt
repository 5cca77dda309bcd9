//! Replies for a sink.

ghost use Rattle.std.specs.Prelude.{◌++◌, ◌≡◌, ◌≤◌, OnOk, OnErr, length};
ghost use Rattle.bp_io.specs.Causes.{HasCause};
ghost use Rattle.bp_plain.specs.Calls as calls;
ghost use Rattle.bp_plain.specs.Calls.Answer.{names};
ghost use Rattle.bp_script.specs.Sayings.{FitsReply, said_text};
ghost use Rattle.bp_script.specs.Texts.{answer_text};
ghost use Rattle.bp_session.specs.Acting.{outcome_text};
ghost use Rattle.bp_session.specs.Held.{PassesText};
ghost use Rattle.bp_session.specs.declared.outcome.Outcome.TheVariants.{Answered};
ghost use Rattle.bp_replies.specs.Gathering.{waiting};
ghost use Rattle.bp_replies.specs.Taking.{TakesPart};

use crate::outcome::Outcome;
use bp_io::{Failed, Sink};
use bp_layout::Listing;
use bp_plain::{Answer, FsError, Reply};
use bp_replies::Replies;
use bp_script::Said;

/// Adds a line for each name, and the line that ends a listing.
fn write_names<K: Sink>(listing: &Listing, replies: &mut Replies, out: &mut K) -> Result<(), Failed>
    ensures all { OnOk result (PassesText (answer_text (names listing.now))
        replies.old (K.view out.old) replies.new (K.view out.new)) }
    ensures some { OnErr result (TakesPart (waiting replies.old ++ answer_text (names listing.now))
        (K.view out.old).taken (K.view out.new).taken) }
    ensures cause { HasCause (K.view out.old).faults (K.view out.new).faults result }
{
    for i in 0..listing.len() {
        let (kind, name) = listing.at(i);
        replies.report(&Said::Name { kind, name }, out)?;
    }
    replies.report(&Said::End, out)
}

/// Adds the answer of a call.
fn write_answer<K: Sink>(reply: &Reply, replies: &mut Replies, out: &mut K) -> Result<(), Failed>
    ensures all { OnOk result (PassesText (answer_text reply.now.answer)
        replies.old (K.view out.old) replies.new (K.view out.new)) }
    ensures some { OnErr result (TakesPart (waiting replies.old ++ answer_text reply.now.answer)
        (K.view out.old).taken (K.view out.new).taken) }
    ensures cause { HasCause (K.view out.old).faults (K.view out.new).faults result }
{
    match reply.answer() {
        Answer::Names(listing) => write_names(listing, replies, out),
        answer => replies.report(&Said::Answer(answer), out),
    }
}

/// Returns the reply to a line that is no call. This is a function of its own, so that a call, which most lines are,
/// reserves no stack space for it.
#[inline(never)]
fn said(outcome: Outcome) -> Said<'static>
    requires { ¬ (outcome ≡ Answered) }
    ensures text { (answer : calls.Answer) → said_text result ≡ outcome_text outcome answer }
    ensures fits { FitsReply result }
{
    match outcome {
        Outcome::Answered => unreachable!(),
        Outcome::Synced => Said::Synced,
        Outcome::Counted { free, live } => Said::Space { free, live },
        Outcome::Kept { c, n } => Said::Kept { c, n },
        Outcome::Logged {
            events,
            barriers,
            calls,
        } => Said::Log {
            events,
            barriers,
            calls,
        },
        Outcome::BadChoice => Said::BadChoice,
        Outcome::NoMemory => Said::Answer(Answer::Refused(FsError::Memory)),
        Outcome::BadSyntax => Said::Syntax,
        Outcome::TooLong => Said::LongLine,
    }
}

/// Adds the reply for an outcome to the waiting replies. If the sink failed, it took a proper prefix of them all.
fn report<K: Sink>(
    outcome: Outcome,
    reply: &Reply,
    replies: &mut Replies,
    out: &mut K,
) -> Result<(), Failed>
    ensures all { OnOk result (PassesText (outcome_text outcome reply.now.answer)
        replies.old (K.view out.old) replies.new (K.view out.new)) }
    ensures some { OnErr result (TakesPart (waiting replies.old ++ outcome_text outcome reply.now.answer)
        (K.view out.old).taken (K.view out.new).taken) }
    ensures cause { HasCause (K.view out.old).faults (K.view out.new).faults result }
{
    match outcome {
        Outcome::Answered => write_answer(reply, replies, out),
        other => replies.report(&said(other), out),
    }
}

/// Adds the reply for an outcome to the waiting replies, and passes them to the sink if they have more than `most`
/// bytes. If the sink failed, it took a proper prefix of them all.
pub(crate) fn write_by<K: Sink>(
    outcome: Outcome,
    reply: &Reply,
    replies: &mut Replies,
    most: usize,
    out: &mut K,
) -> Result<(), Failed>
    ensures all { OnOk result (PassesText (outcome_text outcome reply.now.answer)
        replies.old (K.view out.old) replies.new (K.view out.new)) }
    ensures some { OnErr result (TakesPart (waiting replies.old ++ outcome_text outcome reply.now.answer)
        (K.view out.old).taken (K.view out.new).taken) }
    ensures few { OnOk result (length (waiting replies.new) ≤ most) }
    ensures cause { HasCause (K.view out.old).faults (K.view out.new).faults result }
{
    report(outcome, reply, replies, out)?;
    replies.hand_over_above(most, out)
}
