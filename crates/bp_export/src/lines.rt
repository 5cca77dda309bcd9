//! The lines of calls.

ghost use Rattle.std.specs.Prelude.{[], ◌∷◌};
ghost use Rattle.bp_plain.specs.Seen.{call_of};
ghost use Rattle.bp_script.specs.Export.{FitsText};
ghost use Rattle.bp_export.specs.Report.{ReportsAmong};

use bp_io::{Failed, Sink};
use bp_plain::Call;
use bp_replies::Replies;
use bp_script::Said;

/// Adds the line of a call to the waiting replies.
///
/// # Errors
///
/// * `Failed`: the sink failed.
pub(crate) fn report<K: Sink>(
    call: Call<'_>,
    replies: &mut Replies,
    out: &mut K,
) -> Result<(), Failed>
    requires { FitsText (call_of call) }
    ensures { ReportsAmong (call_of call.entry ∷ []) result replies.old (K.view out.old) replies.new (K.view out.new) }
{
    replies.report(&Said::Call(call), out)
}
