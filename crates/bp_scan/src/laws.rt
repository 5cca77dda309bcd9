//! Properties of a scan. Each is the contract of a function with an empty body.

ghost use Rattle.std.specs.Prelude.{◌≡◌, ℕ, ◌%◌, ◌<◌, ◌≤◌, false, true};
ghost use Rattle.bp_free.specs.Set.{has};
ghost use Rattle.bp_limits.specs.Limits.{block_size, root_ino};
ghost use Rattle.bp_layout.specs.Checks.{Fails, IsFound};
ghost use Rattle.bp_layout.specs.Formatted.{IsFormatted};
ghost use Rattle.bp_layout.specs.declared.check.Check.{Check};
ghost use Rattle.bp_layout.specs.Free.{AreFreeBlocks, AreFreeInodes};
ghost use Rattle.bp_layout.specs.Inode.{IsDirectory, inode_count, size_of};
ghost use Rattle.bp_layout.specs.WellFormed.{IsWellFormed};
ghost use Rattle.bp_scan.specs.Inodes.{FailsTreeOf};
ghost use Rattle.bp_scan.specs.Progress.{IsMidway};
ghost use Rattle.bp_layout.specs.Thaw.{none_in_snapshot};

use bp_free::{Blocks, Inodes};

/// States that when no directory is left to be read, the image is well formed, and the two sets have exactly the free
/// blocks and the free inodes.
pub fn nothing_is_left(image: &[u64], blocks: &Blocks, inodes: &Inodes, todo: &Inodes)
    requires formatted { IsFormatted image.now }
    requires inode_blocks { size_of image.now 0 % block_size ≡ 0 }
    requires some_inodes { block_size ≤ size_of image.now 0 }
    requires root_kind { IsDirectory image.now root_ino }
    requires range { (i : ℕ) → has inodes.now i ≡ true → (2 ≤ i) × (i < inode_count image.now) }
    requires midway { IsMidway image.now blocks.now inodes.now todo.now 0 0 }
    requires none_left { (i : ℕ) → has todo.now i ≡ false }
    ensures well_formed { IsWellFormed image.now }
    ensures blocks { AreFreeBlocks image.now none_in_snapshot (has blocks.now) }
    ensures inodes { AreFreeInodes image.now (has inodes.now) }
{}

/// States that a check that fails in the tree of an inode to which no entry before referred fails in the image, at
/// that place.
pub fn fault_of_a_tree(
    image: &[u64],
    blocks: &Blocks,
    inodes: &Inodes,
    todo: &Inodes,
    current: u32,
    slot: u32,
    ino: u32,
    holes: bool,
)
    requires some_inodes { block_size ≤ size_of image.now 0 }
    requires midway { IsMidway image.now blocks.now inodes.now todo.now current slot }
    requires inode_file { has inodes.now 0 ≡ false }
    requires new { has inodes.now ino ≡ true }
    requires found { IsFound image.now ino }
    requires kind { holes ≡ false → IsDirectory image.now ino }
    ensures { (check : Check) (place : ℕ) →
        FailsTreeOf image.now ino holes blocks.now check place → Fails image.now check place }
{}
