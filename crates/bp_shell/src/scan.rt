//! The scan of an image.

ghost use Rattle.bp_io.specs.Views.{Known};
ghost use Rattle.bp_layout.specs.Formatted.{IsSized};
ghost use Rattle.bp_layout.specs.Words.{block_count};
ghost use Rattle.bp_limits.specs.Limits.{block_inodes};
ghost use Rattle.bp_roles.specs.Mounted.{by_roles};
ghost use Rattle.bp_script.specs.declared.notices.Notice.{Notice};
ghost use Rattle.bp_session.specs.Files.{HasImage};
ghost use Rattle.bp_shell.specs.Opening.{RefusesFile};
ghost use Rattle.bp_shell.specs.Scanning.{IsSeenMounted, ScanFinds};
ghost use Rattle.bp_shell.specs.declared.stop.Stop.TheVariants.{Memory, Refused};
ghost use Rattle.std.specs.Prelude.{◌*◌, ◌≡◌, ◌⊎◌, IfErr, IfOk, length};

use crate::image_file::stop_of;
use crate::stop::Stop;
use bp_layout::Totals;
use bp_limits::BLOCK_WORDS;
use bp_mount::{Sets, stored_fault};
use bp_roles::RegionByRoles;
use bp_scan::scan_whole;
use pm_raw::RawRegion;
use pm_region::Region;
use std::alloc::Global;

/// The results of the scan of a file system.
#[derive(Drop)]
pub(crate) struct Scanned {
    /// The free blocks, the blocks of the snapshot, and the number of links of each inode.
    pub(crate) sets: Sets,
    /// The totals of the file system.
    pub(crate) totals: Totals,
}

/// Scans both trees of an image, seen as a mount sees it, in the memory of `sets`.
fn scan_with(
    alloc: Global,
    region: &RegionByRoles<RawRegion>,
    sets: &mut Sets,
) -> Result<Totals, Stop>
    requires seen { IsSeenMounted region.now }
    requires sized { IsSized region.now.memory.base }
    requires blocks { length sets.old.free_blocks ≡ block_count region.now.memory.base }
    requires inodes { length sets.old.free_inodes ≡ block_inodes * block_count region.now.memory.base }
    requires counts { length sets.old.link_counts ≡ block_inodes * block_count region.now.memory.base }
    requires snapshot_blocks { length sets.old.snapshot_blocks ≡ block_count region.now.memory.base }
    requires pending { sets.old.pending ≡ block_inodes * block_count region.now.memory.base }
    ensures found { IfOk result
        (λ totals. ScanFinds (by_roles region.now.memory.base) sets.new.snapshot_blocks sets.new.free_blocks sets.new.link_counts totals) }
    ensures refused { IfErr result (λ stop. (known : Known) (notice : Notice) → HasImage known region.now.memory.base →
        stop ≡ Refused notice → RefusesFile known notice) }
    ensures kinds { IfErr result (λ stop. ((notice : Notice) × (stop ≡ Refused notice)) ⊎ (stop ≡ Memory)) }
{
    let Sets {
        free_blocks,
        free_inodes,
        link_counts,
        snapshot_blocks,
        pending,
    } = sets;
    match scan_whole(
        alloc,
        region,
        free_blocks,
        free_inodes,
        snapshot_blocks,
        pending,
        link_counts,
    ) {
        Ok(totals) => Ok(totals),
        Err(fault) => Err(stop_of(stored_fault(region.roles(), fault))),
    }
}

/// Scans both trees of an image, seen as a mount sees it.
///
/// # Errors
///
/// * `Refused`: the image is no file system; the line says why. A place in it is one in the region below.
/// * `Memory`: allocation of memory for the scan failed.
pub(crate) fn scan_image(alloc: Global, region: &RegionByRoles<RawRegion>) -> Result<Scanned, Stop>
    requires seen { IsSeenMounted region.now }
    requires sized { IsSized region.now.memory.base }
    ensures found { IfOk result
        (λ found. ScanFinds (by_roles region.now.memory.base) found.sets.snapshot_blocks found.sets.free_blocks found.sets.link_counts found.totals) }
    ensures refused { IfErr result (λ stop. (known : Known) (notice : Notice) → HasImage known region.now.memory.base →
        stop ≡ Refused notice → RefusesFile known notice) }
    ensures kinds { IfErr result (λ stop. ((notice : Notice) × (stop ≡ Refused notice)) ⊎ (stop ≡ Memory)) }
{
    let mut sets = match Sets::new(alloc, (region.words() / BLOCK_WORDS) as u32) {
        Ok(sets) => sets,
        Err(_) => return Err(Stop::Memory),
    };
    match scan_with(alloc, region, &mut sets) {
        Ok(totals) => Ok(Scanned { sets, totals }),
        Err(stop) => Err(stop),
    }
}
