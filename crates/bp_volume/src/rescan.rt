//! A scan of a volume's own words.

ghost use Rattle.std.specs.Prelude.{◌*◌, ◌≡◌, length};
ghost use Rattle.bp_limits.specs.Limits.{block_inodes};
ghost use Rattle.bp_layout.specs.Trees.{AreInSnapshot};
ghost use Rattle.bp_layout.specs.Whole.{IsFileSystem};
ghost use Rattle.bp_layout.specs.Words.{block_count};
ghost use Rattle.bp_layout.specs.Totals.{HasTotals};
ghost use Rattle.bp_changes.specs.Sets.{in_snapshot_of};
ghost use Rattle.bp_calls.specs.Mounted.{image_in, IsExactIn};

use bp_free::Parts;
use bp_layout::Totals;
use bp_scan::{Pending, scan_known};
use pm_region::Region;

/// Sets the sets and counts to those of the words, which are a file system, whatever they were before, and returns its
/// totals. It allocates no memory: it uses that of the sets and of `pending`.
pub(crate) fn rescan<R: Region>(parts: &mut Parts<R>, pending: &mut Pending) -> Totals
    requires well_formed { IsFileSystem (image_in R.memory parts.old) }
    requires blocks { length parts.old.free_blocks ≡ block_count (image_in R.memory parts.old) }
    requires inodes { length parts.old.free_inodes ≡ block_inodes * block_count (image_in R.memory parts.old) }
    requires counts { length parts.old.link_counts ≡ block_inodes * block_count (image_in R.memory parts.old) }
    requires snapshot_blocks { length parts.old.snapshot_blocks ≡ block_count (image_in R.memory parts.old) }
    requires pending { pending.old ≡ block_inodes * block_count (image_in R.memory parts.old) }
    ensures region { parts.new.region ≡ parts.old.region }
    ensures exact { IsExactIn R.memory parts.new }
    ensures snapshot_blocks { AreInSnapshot (image_in R.memory parts.new) (in_snapshot_of parts.new) }
    ensures totals { HasTotals (image_in R.memory parts.old) result }
    ensures pending { pending.new ≡ pending.old }
{
    scan_known(
        &parts.region,
        &mut parts.free_blocks,
        &mut parts.free_inodes,
        &mut parts.snapshot_blocks,
        pending,
        &mut parts.link_counts,
    )
}
