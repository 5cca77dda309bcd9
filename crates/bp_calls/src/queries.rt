//! Calls that change nothing.

ghost use Rattle.std.specs.Prelude.{◌≡◌, ◌≤◌, drop, length, take};
ghost use Rattle.bp_calls.specs.Asked.{bytes_of, stat_of};
ghost use Rattle.bp_calls.specs.Mounted.{image_in, IsMountedIn};
ghost use Rattle.bp_layout.specs.Inode.{IsFile};
ghost use Rattle.bp_layout.specs.Names.{HasNames};
ghost use Rattle.bp_layout.specs.Reached.{IsReached};
ghost use Rattle.bp_layout.specs.WellFormed.{IsWellFormed};
ghost use Rattle.pm_region.specs.Memory.{words_in};

use bp_free::Parts;
use bp_layout::{Kind, Stat};
use bp_read::Tree;
use bp_read::directory::count;
use bp_read::inodes::{get, tree_of};
use pm_region::Region;

/// Reads bytes of a file from an offset on, and returns their number: as many as `into` has room for and the file has
/// from there on. At and past the end of the file there are none. The rest of `into` is unchanged.
pub fn read<R: Region>(region: &R, ino: u32, offset: u64, into: &mut [u8]) -> usize
    requires well_formed { IsWellFormed (words_in R.memory region.now) }
    requires reached { IsReached (words_in R.memory region.now) ino }
    requires file { IsFile (words_in R.memory region.now) ino }
    ensures bytes { take result into.new ≡
        take (length into.old) (drop offset (bytes_of (words_in R.memory region.now) ino)) }
    ensures fits { result ≤ length into.new }
    ensures rest { drop result into.new ≡ drop result into.old }
{
    bp_read::read(region, tree_of(region, ino), offset, into)
}

/// Returns the size in bytes of a file, or the number of names of a directory.
pub fn stat<R: Region>(region: &R, ino: u32) -> Stat
    requires well_formed { IsWellFormed (words_in R.memory region.now) }
    requires reached { IsReached (words_in R.memory region.now) ino }
    requires inode { 1 ≤ ino }
    ensures { result ≡ stat_of (words_in R.memory region.now) ino }
{
    let inode = get(region, ino);
    let tree = Tree {
        root: inode.root,
        size: inode.size,
    };
    match inode.kind {
        Kind::File => Stat::File { size: tree.size },
        Kind::Dir => Stat::Dir {
            count: count(region, tree),
        },
    }
}

/// Returns the number of links of an inode.
pub fn links<R: Region>(parts: &Parts<R>, ino: u32) -> u32
    requires mounted { IsMountedIn R.memory parts.now }
    requires reached { IsReached (image_in R.memory parts.now) ino }
    ensures { HasNames (image_in R.memory parts.now) ino result }
{
    parts.link_counts.names(ino)
}
