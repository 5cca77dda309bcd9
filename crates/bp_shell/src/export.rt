//! The program `export`. It exports the first tree only: no script makes the old bytes of a snapshot.

ghost use Rattle.bp_layout.specs.Names.{AreCounts};
ghost use Rattle.bp_layout.specs.Whole.{IsFileSystem};
ghost use Rattle.bp_layout.specs.Words.{block_count};
ghost use Rattle.bp_limits.specs.Limits.{block_inodes};
ghost use Rattle.bp_roles.specs.Mounted.{by_roles};
ghost use Rattle.bp_shell.specs.Answering.{EndsUnread};
ghost use Rattle.bp_shell.specs.Exporting.{ExportOutcome, PrintsTreeOf};
ghost use Rattle.bp_shell.specs.Opening.{HoldsFileSystem, OnlyReads};
ghost use Rattle.bp_shell.specs.Scanning.{IsSeenMounted, ScanFinds};
ghost use Rattle.bp_shell.specs.Stops.{HasStopCause, IsReason};
ghost use Rattle.std.specs.Prelude.{◌*◌, ◌≡◌, IfErr, IfOk, length};

use crate::image_file::load_file;
use crate::output::{report_notice, report_stop};
use crate::scan::{Scanned, scan_image};
use crate::status::Status;
use crate::stop::Stop;
use bp_export::{Fault, export};
use bp_free::Counts;
use bp_io::{Access, Files, Sink};
use bp_roles::RegionByRoles;
use bp_script::Notice;
use pm_raw::RawRegion;
use std::alloc::Global;

/// Prints the script that makes the tree of a file system, if calls can spell its paths. `counts` has the number of
/// links of each inode.
fn report_tree<K: Sink>(
    alloc: Global,
    region: &RegionByRoles<RawRegion>,
    counts: &Counts,
    out: &mut K,
) -> Status
    requires seen { IsSeenMounted region.now }
    requires whole { IsFileSystem (by_roles region.now.memory.base) }
    requires counts { AreCounts (by_roles region.now.memory.base) counts.now }
    requires inodes { length counts.now ≡ block_inodes * block_count (by_roles region.now.memory.base) }
    ensures { PrintsTreeOf (by_roles region.now.memory.base) result (K.view out.old) (K.view out.new) }
{
    match export(alloc, region, counts, out) {
        Ok(()) => Status::Done,
        Err(Fault::Memory) => Status::Memory,
        Err(Fault::Sink) => Status::SinkFailed,
        Err(Fault::Deep) => {
            report_notice(&Notice::Deep, out);
            Status::Deep
        }
    }
}

/// Reads the file of a name, and scans its words.
fn examine<F: Files>(
    alloc: Global,
    name: &str,
    files: &mut F,
) -> Result<(RegionByRoles<RawRegion>, Scanned), Stop>
    ensures holds { IfOk result (λ found. HoldsFileSystem ((F.view files.old).contents name.now) found.0.memory.base) }
    ensures seen { IfOk result (λ found. IsSeenMounted found.0) }
    ensures scanned { IfOk result
        (λ found. ScanFinds (by_roles found.0.memory.base) found.1.sets.snapshot_blocks found.1.sets.free_blocks found.1.sets.link_counts found.1.totals) }
    ensures reason { IfErr result (IsReason ((F.view files.old).contents name.now)) }
    ensures cause { HasStopCause (F.view files.old).faults (F.view files.new).faults result }
    ensures reads { OnlyReads name.now (F.view files.old) (F.view files.new) }
    ensures flushed { (F.view files.new).is_flushed ≡ (F.view files.old).is_flushed }
{
    let region = RegionByRoles::by_magic(load_file(alloc, name, Access::Read, files)?);
    let scanned = scan_image(alloc, &region)?;
    Ok((region, scanned))
}

/// Prints the script that makes the tree of the file of a name, which is only read. The status is `Done` if the whole
/// script was taken, `Missing` if the file does not exist, else `SinkFailed`, `FilesFailed`, `Refused`, `Memory`,
/// which may come after a prefix of the script, or `Deep`, before any of it, if calls cannot spell some path.
pub(crate) fn export_file<K: Sink, F: Files>(
    alloc: Global,
    name: &str,
    out: &mut K,
    files: &mut F,
) -> Status
    // Whatever bytes a source has left.
    ensures outcome { EndsUnread (ExportOutcome result) name.now
        (K.view out.old) (F.view files.old) (K.view out.new) (F.view files.new) }
    ensures reads { OnlyReads name.now (F.view files.old) (F.view files.new) }
{
    match examine(alloc, name, files) {
        Ok((region, scanned)) => report_tree(alloc, &region, &scanned.sets.link_counts, out),
        Err(stop) => report_stop(stop, out),
    }
}
