//! Results of calls as replies.

ghost use Rattle.std.specs.Prelude.{◌≡◌, ◌≤◌, IfOk};
ghost use Rattle.bp_limits.specs.Limits.{max_read};
ghost use Rattle.bp_volume.specs.Seen.{attribute_answer, links_answer, list_answer_of, read_answer_of, stat_answer_of, unit_answer};

use bp_layout::{Listing, Stat};
use bp_plain::{FsError, Reply};

/// Sets the reply to the result of a call that returns no value.
pub(crate) fn report_done(reply: &mut Reply, outcome: Result<(), FsError>)
    ensures { reply.new.answer ≡ unit_answer outcome }
{
    match outcome {
        Ok(()) => reply.set_done(),
        Err(error) => reply.set_refused(error),
    }
}

/// Sets the reply to the result of `stat`.
pub(crate) fn report_stat(reply: &mut Reply, outcome: Result<Stat, FsError>)
    ensures { reply.new.answer ≡ stat_answer_of outcome }
{
    match outcome {
        Ok(Stat::File { size }) => reply.set_file(size),
        Ok(Stat::Dir { count }) => reply.set_dir(count),
        Err(error) => reply.set_refused(error),
    }
}

/// Sets the reply to the result of `links`.
pub(crate) fn report_links(reply: &mut Reply, outcome: Result<u32, FsError>)
    ensures { reply.new.answer ≡ links_answer outcome }
{
    match outcome {
        Ok(count) => reply.set_links(count),
        Err(error) => reply.set_refused(error),
    }
}

/// Sets the reply to the result of `attribute`.
pub(crate) fn report_attribute(reply: &mut Reply, outcome: Result<u64, FsError>)
    ensures { reply.new.answer ≡ attribute_answer outcome }
{
    match outcome {
        Ok(value) => reply.set_attribute(value),
        Err(error) => reply.set_refused(error),
    }
}

/// Sets the reply to the result of `list`.
pub(crate) fn report_list(reply: &mut Reply, outcome: Result<Listing, FsError>)
    ensures { reply.new.answer ≡ list_answer_of outcome }
{
    match outcome {
        Ok(listing) => reply.set_names(listing),
        Err(error) => reply.set_refused(error),
    }
}

/// Sets the reply to the result of `read`, whose bytes are in the reply's buffer.
pub(crate) fn report_read(reply: &mut Reply, outcome: Result<usize, FsError>)
    requires { IfOk outcome (λ count. count ≤ max_read) }
    ensures { reply.new.answer ≡ read_answer_of outcome reply.old.buffer }
{
    match outcome {
        Ok(count) => reply.set_bytes(count),
        Err(error) => reply.set_refused(error),
    }
}
