//! The walk over all trees of an image.

ghost use Rattle.std.specs.Prelude.{◌≡◌, ℕ, true, false, OnOk, IfOk, IfErr};
ghost use Rattle.bp_free.specs.Set.{has};
ghost use Rattle.bp_layout.specs.Checks.{Fails};
ghost use Rattle.bp_layout.specs.Formatted.{IsFormatted};
ghost use Rattle.bp_layout.specs.Free.{AreFreeBlocks, AreFreeInodes};
ghost use Rattle.bp_layout.specs.Names.{AreCounts};
ghost use Rattle.bp_layout.specs.WellFormed.{IsWellFormed};
ghost use Rattle.bp_scan.specs.Reading.{IsReading, IsUnread};
ghost use Rattle.bp_scan.specs.Room.{HasScanMemory};
ghost use Rattle.bp_scan.specs.Scanned.{AreOthersLive};
ghost use Rattle.bp_layout.specs.Totals.{HasTreeTotals};
ghost use Rattle.bp_scan.specs.Walked.{IsWalkFault};
ghost use Rattle.pm_region.specs.Memory.{words_in};
ghost use Rattle.bp_layout.specs.Thaw.{none_in_snapshot};

use crate::directories::read_directory;
use crate::name_check::{NameCheck, WalkFault};
use crate::trees::{enter, enter_inode_file};
use crate::work::Scan;
use bp_layout::Totals;
use bp_limits::INODE_SIZE;
use bp_read::inodes::inode_file;
use bp_walk::CheckFault;
use pm_region::Region;

/// Enters the inode file and the root directory, which is then to be read.
fn start<R: Region>(region: &R, work: &mut Scan) -> Result<(), CheckFault>
    requires formatted { IsFormatted (words_in R.memory region.now) }
    requires unread { IsUnread (words_in R.memory region.now) work.old }
    ensures started { OnOk result (IsReading (words_in R.memory region.now) work.new 0 0) }
    ensures fault { IfErr result (λ f. Fails (words_in R.memory region.now) f.check f.place) }
    ensures room { HasScanMemory (words_in R.memory region.now) work.new }
{
    let room = work.blocks.room();
    work.blocks.fill(1, room as usize);
    enter_inode_file(region, &mut work.blocks)?;
    let count = inode_file(region).size / INODE_SIZE;
    work.inodes.fill(2, count as usize);
    enter(region, 1, work)
}

/// Reads the directories that are to be read, and those that they lead to.
fn read_directories<R: Region, N: NameCheck>(
    region: &R,
    names: &mut N,
    work: &mut Scan,
) -> Result<(), WalkFault>
    requires reading { IsReading (words_in R.memory region.now) work.old 0 0 }
    requires known { N.known ≡ true → IsWellFormed (words_in R.memory region.now) }
    ensures reading { OnOk result (IsReading (words_in R.memory region.now) work.new 0 0) }
    ensures none_left { OnOk result ((i : ℕ) → has work.new.todo i ≡ false) }
    ensures fault { IfErr result (IsWalkFault (Fails (words_in R.memory region.now)) N.known) }
    ensures room { HasScanMemory (words_in R.memory region.now) work.new }
{
    while let Some(inode) = work.todo.take() {
        read_directory(region, inode, names, work)?;
    }
    Ok(())
}

/// Reads the inode file of a formatted image, and all trees that it leads to. It puts the free blocks and inodes into
/// the two sets, counts the links of the inodes, and returns the totals. It returns an error if a check fails, and if
/// allocation fails for names that are not known; sets and counts have no defined contents then.
pub(crate) fn read_trees<R: Region, N: NameCheck>(
    region: &R,
    names: &mut N,
    work: &mut Scan,
) -> Result<Totals, WalkFault>
    requires formatted { IsFormatted (words_in R.memory region.now) }
    requires unread { IsUnread (words_in R.memory region.now) work.old }
    requires known { N.known ≡ true → IsWellFormed (words_in R.memory region.now) }
    ensures well_formed { OnOk result (IsWellFormed (words_in R.memory region.now)) }
    ensures blocks { OnOk result (AreFreeBlocks (words_in R.memory region.now) none_in_snapshot (has work.new.blocks)) }
    ensures others { OnOk result (AreOthersLive (words_in R.memory region.now) (has work.new.blocks)) }
    ensures inodes { OnOk result (AreFreeInodes (words_in R.memory region.now) (has work.new.inodes)) }
    ensures counts { OnOk result (AreCounts (words_in R.memory region.now) work.new.counts) }
    ensures totals { IfOk result (HasTreeTotals (words_in R.memory region.now)) }
    ensures fault { IfErr result (IsWalkFault (Fails (words_in R.memory region.now)) N.known) }
    ensures room { HasScanMemory (words_in R.memory region.now) work.new }
{
    start(region, work)?;
    read_directories(region, names, work)?;
    Ok(work.all_totals())
}
