//! The trees that a scan enters: the inode file, and the trees of inodes.

ghost use Rattle.std.specs.Prelude.{◌≡◌, ◌+◌, ◌^◌, ◌<◌, ◌≤◌, false, length, OnOk, IfErr};
ghost use Rattle.bp_free.specs.Set.{has};
ghost use Rattle.bp_layout.specs.Checks.{Fails};
ghost use Rattle.bp_layout.specs.Formatted.{IsFormatted};
ghost use Rattle.bp_layout.specs.Inode.{inode_count, root_of, size_of};
ghost use Rattle.bp_layout.specs.Tree.{IsFull, IsSound};
ghost use Rattle.bp_scan.specs.Counted.{IsCountable};
ghost use Rattle.bp_scan.specs.Inodes.{AreWords, IsRightInode, IsWrong, EntersInode, FailsInode};
ghost use Rattle.bp_scan.specs.Reading.{HasWholeInodes, HasInodeFile};
ghost use Rattle.bp_scan.specs.Room.{HasScanMemory};
ghost use Rattle.bp_scan.specs.Scanned.{HasAllBlocks};
ghost use Rattle.pm_region.specs.Memory.{words_in};

use crate::inode_count::count_inode;
use crate::work::Scan;
use bp_free::Blocks;
use bp_layout::Check;
use bp_limits::{
    BLOCK_SIZE, DIRECTORY_KIND, ENTRY_SIZE, FILE_KIND, ROOT_INO, SUPER_ROOT, SUPER_SIZE,
};
use bp_read::Tree;
use bp_read::inodes::{inode_file, place};
use bp_walk::{CheckFault, take_tree};
use pm_region::Region;

/// The words of an inode that are in use.
#[derive(Clone, Copy)]
struct InodeWords {
    /// The number of the word of the region that is the inode's first one.
    place: u64,
    /// `FILE_KIND` or `DIRECTORY_KIND`, if it is right.
    kind: u64,
    /// Its root word and its size in bytes.
    tree: Tree,
}

/// Enters the inode file: takes its blocks out of the set of all blocks except the first.
pub(crate) fn enter_inode_file<R: Region>(region: &R, blocks: &mut Blocks) -> Result<(), CheckFault>
    requires formatted { IsFormatted (words_in R.memory region.now) }
    requires all { HasAllBlocks (words_in R.memory region.now) blocks.old }
    ensures ready { OnOk result (HasWholeInodes (words_in R.memory region.now)) }
    ensures entered { OnOk result (HasInodeFile (words_in R.memory region.now) blocks.old blocks.new) }
    ensures fault { IfErr result (λ f. Fails (words_in R.memory region.now) f.check f.place) }
    ensures room { length blocks.new ≡ length blocks.old }
{
    let file = inode_file(region);
    if file.size % BLOCK_SIZE != 0 || file.size < BLOCK_SIZE {
        return Err(CheckFault {
            check: Check::InodeFileSize,
            place: SUPER_SIZE,
        });
    }
    take_tree(region, SUPER_ROOT, file, false, blocks)
}

/// Reads the words of an inode.
fn load_inode<R: Region>(region: &R, ino: u32) -> InodeWords
    requires formatted { IsFormatted (words_in R.memory region.now) }
    requires sound { let words = words_in R.memory region.now in IsSound words (root_of words 0) (size_of words 0) }
    requires full { let words = words_in R.memory region.now in IsFull words (root_of words 0) (size_of words 0) }
    requires some { 1 ≤ ino }
    requires there { ino < inode_count (words_in R.memory region.now) }
    ensures { AreWords (words_in R.memory region.now) ino result }
{
    let place = place(region, ino, 0);
    // Words of one inode follow one another in a block, so they are read together.
    let _words = region.words();
    let words = region.load_words(place, 3);
    InodeWords {
        place,
        kind: words[0],
        tree: Tree {
            root: words[1],
            size: words[2],
        },
    }
}

/// Checks the kind of an inode, and the size of a directory.
fn check_words(ino: u32, words: InodeWords) -> Result<(), CheckFault>
    requires { words.place + 2 < 2 ^ 41 }
    ensures ok { OnOk result (IsRightInode ino words.kind words.tree.size) }
    ensures err { IfErr result (λ f. IsWrong ino words.kind words.tree.size words.place f.check f.place) }
{
    match words.kind {
        DIRECTORY_KIND if words.tree.size % ENTRY_SIZE == 0 => Ok(()),
        DIRECTORY_KIND => Err(CheckFault {
            check: Check::DirectorySize,
            place: words.place + 2,
        }),
        FILE_KIND if ino != ROOT_INO => Ok(()),
        _ => Err(CheckFault {
            check: Check::Kind,
            place: words.place,
        }),
    }
}

/// Enters the tree of an inode: takes its blocks out of the set, counts the inode, and, if it is a directory, adds it
/// to those to be read.
pub(crate) fn enter<R: Region>(region: &R, ino: u32, work: &mut Scan) -> Result<(), CheckFault>
    requires formatted { IsFormatted (words_in R.memory region.now) }
    requires sound { let words = words_in R.memory region.now in IsSound words (root_of words 0) (size_of words 0) }
    requires full { let words = words_in R.memory region.now in IsFull words (root_of words 0) (size_of words 0) }
    requires some { 1 ≤ ino }
    requires there { ino < inode_count (words_in R.memory region.now) }
    requires room { HasScanMemory (words_in R.memory region.now) work.old }
    requires not_first { has work.old.blocks 0 ≡ false }
    requires new { has work.old.todo ino ≡ false }
    requires todo { ino < length work.old.todo }
    requires few { IsCountable work.old.totals }
    ensures ok { OnOk result (EntersInode (words_in R.memory region.now) ino work.old work.new) }
    ensures err { let words = words_in R.memory region.now in
        IfErr result (λ f. FailsInode words ino work.old.blocks f.check f.place) }
    ensures room { HasScanMemory (words_in R.memory region.now) work.new }
{
    let words = load_inode(region, ino);
    check_words(ino, words)?;
    let holes = words.kind != DIRECTORY_KIND;
    take_tree(region, words.place + 1, words.tree, holes, &mut work.blocks)?;
    work.totals = count_inode(work.totals, words.kind, words.tree.size);
    if !holes {
        work.todo.give(ino);
    }
    Ok(())
}
