//! The lines that programs print, other than replies.

ghost use Rattle.bp_io.specs.Causes.{HasCause};
ghost use Rattle.bp_script.specs.Sayings.{notice_text};
ghost use Rattle.bp_session.specs.Faults.{Prints};
ghost use Rattle.bp_replies.specs.Taking.{TakesPart};
ghost use Rattle.bp_shell.specs.Ending.{PrintsStop};
ghost use Rattle.std.specs.Io.KnownBytes.{Appends};
ghost use Rattle.std.specs.Prelude.{OnErr, OnOk};

use crate::status::Status;
use crate::stop::Stop;
use bp_io::{Failed, Sink};
use bp_replies::send::send;
use bp_script::{MAX_NOTICE, Notice, announce};

/// Prints a line. If the sink failed, it took a proper prefix of the line.
pub(crate) fn print<K: Sink>(notice: &Notice, out: &mut K) -> Result<(), Failed>
    ensures all { OnOk result (Appends (K.view out.old).taken (K.view out.new).taken (notice_text notice.now)) }
    ensures some { OnErr result (TakesPart (notice_text notice.now) (K.view out.old).taken (K.view out.new).taken) }
    ensures cause { HasCause (K.view out.old).faults (K.view out.new).faults result }
{
    let mut text = [0u8; MAX_NOTICE];
    let count = announce(notice, &mut text);
    send(out, &text[..count])
}

/// Prints a line as far as the sink takes it.
pub(crate) fn report_notice<K: Sink>(notice: &Notice, out: &mut K)
    ensures { Prints (notice_text notice.now) (K.view out.old).taken (K.view out.new).taken
        (K.view out.old).faults (K.view out.new).faults }
{
    let _ = print(notice, out);
}

/// Prints the line of a reason, if the reason has one, and returns the status of that reason.
pub(crate) fn report_stop<K: Sink>(stop: Stop, out: &mut K) -> Status
    ensures { PrintsStop stop result (K.view out.old).taken (K.view out.new).taken (K.view out.old).faults (K.view out.new).faults }
{
    match stop {
        Stop::Missing => {
            report_notice(&Notice::NoFile, out);
            Status::Missing
        }
        Stop::Outside => Status::FilesFailed,
        Stop::Refused(notice) => {
            report_notice(&notice, out);
            Status::Refused
        }
        Stop::Memory => Status::Memory,
    }
}
