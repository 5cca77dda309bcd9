//! The program `check`.

ghost use Rattle.bp_io.specs.Views.{Known};
ghost use Rattle.bp_layout.specs.Formatted.{IsSized};
ghost use Rattle.bp_layout.specs.Whole.{IsFileSystem};
ghost use Rattle.bp_roles.specs.Mounted.{by_roles};
ghost use Rattle.bp_script.specs.declared.notices.Notice.{Notice};
ghost use Rattle.bp_shell.specs.Answering.{EndsUnread};
ghost use Rattle.bp_shell.specs.Checking.{CheckOutcome, Checks, IsClean};
ghost use Rattle.bp_session.specs.Files.{HasImage};
ghost use Rattle.bp_shell.specs.Opening.{OnlyReads, RefusesFile};
ghost use Rattle.bp_shell.specs.Scanning.{IsSeenMounted};
ghost use Rattle.bp_shell.specs.Stops.{HasStopCause, IsReason};
ghost use Rattle.bp_shell.specs.declared.stop.Stop.TheVariants.{Memory, Refused};
ghost use Rattle.std.specs.Prelude.{◌≡◌, ◌⊎◌, IfErr, IfOk, OnOk};

use crate::image_file::load_file;
use crate::output::{print, report_stop};
use crate::scan::scan_image;
use crate::status::Status;
use crate::stop::Stop;
use bp_io::{Access, Failed, Files, Sink};
use bp_roles::RegionByRoles;
use bp_script::Notice;
use pm_raw::RawRegion;
use std::alloc::Global;

/// Scans an image, seen as a mount sees it, and returns the line with its totals.
fn survey(alloc: Global, region: &RegionByRoles<RawRegion>) -> Result<Notice, Stop>
    requires seen { IsSeenMounted region.now }
    requires sized { IsSized region.now.memory.base }
    ensures well_formed { OnOk result (IsFileSystem (by_roles region.now.memory.base)) }
    ensures clean { IfOk result (IsClean (by_roles region.now.memory.base)) }
    ensures refused { IfErr result (λ stop. (known : Known) (notice : Notice) → HasImage known region.now.memory.base →
        stop ≡ Refused notice → RefusesFile known notice) }
    ensures kinds { IfErr result (λ stop. ((notice : Notice) × (stop ≡ Refused notice)) ⊎ (stop ≡ Memory)) }
{
    let found = scan_image(alloc, region)?;
    Ok(Notice::Clean {
        files: found.totals.files,
        dirs: found.totals.dirs,
        bytes: found.totals.bytes,
        live: found.totals.live,
        free: found.sets.free_blocks.count(),
    })
}

/// Reads the file of a name, and returns the line with its totals.
fn examine<F: Files>(alloc: Global, name: &str, files: &mut F) -> Result<Notice, Stop>
    ensures checks { IfOk result (Checks ((F.view files.old).contents name.now)) }
    ensures reason { IfErr result (IsReason ((F.view files.old).contents name.now)) }
    ensures cause { HasStopCause (F.view files.old).faults (F.view files.new).faults result }
    ensures reads { OnlyReads name.now (F.view files.old) (F.view files.new) }
    ensures flushed { (F.view files.new).is_flushed ≡ (F.view files.old).is_flushed }
{
    let region = load_file(alloc, name, Access::Read, files)?;
    survey(alloc, &RegionByRoles::by_magic(region))
}

/// Checks whether the file of a name is a file system, and prints its totals. The status is `Done` if it is one,
/// `Missing` if the file does not exist, else `SinkFailed`, `FilesFailed`, `Refused` or `Memory`.
pub(crate) fn check_file<K: Sink, F: Files>(
    alloc: Global,
    name: &str,
    out: &mut K,
    files: &mut F,
) -> Status
    // Whatever bytes a source has left.
    ensures outcome { EndsUnread (CheckOutcome result) name.now
        (K.view out.old) (F.view files.old) (K.view out.new) (F.view files.new) }
    ensures reads { OnlyReads name.now (F.view files.old) (F.view files.new) }
{
    let notice = match examine(alloc, name, files) {
        Ok(notice) => notice,
        Err(stop) => return report_stop(stop, out),
    };
    match print(&notice, out) {
        Ok(()) => Status::Done,
        Err(Failed) => Status::SinkFailed,
    }
}
