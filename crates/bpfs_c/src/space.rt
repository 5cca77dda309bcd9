//! Block counts and totals of a volume.

ghost use Rattle.std.specs.Prelude.{◌≡◌};
ghost use Rattle.bpfs_c.specs.Serves.{Looked};
ghost use Rattle.bpfs_c.specs.Sums.{HasBlockCounts, HasSums, sums_of};

use crate::codes::{CLOSED, OK};
use crate::handle::Handle;
use bp_volume::Totals;
use std::alloc::Global;

/// The block counts of a volume, without the first block.
#[repr(C)]
#[derive(Clone, Copy, Drop)]
pub struct Blocks {
    /// The number of blocks that no tree uses.
    pub free: u32,
    /// The number of blocks that the trees use.
    pub live: u32,
}

/// The totals of a volume.
#[repr(C)]
#[derive(Clone, Copy, Drop)]
pub struct Sums {
    /// The number of files.
    pub files: u64,
    /// The number of directories, with the root directory.
    pub dirs: u64,
    /// The number of bytes of all files, modulo 2^64.
    pub bytes: u64,
    /// The number of bytes of all files, divided by 2^64.
    pub bytes_above: u64,
    /// The number of blocks in use, without the first.
    pub live: u32,
}

/// Counts the free and the live blocks.
#[unsafe(no_mangle)]
pub extern "C" fn bpfs_space(alloc: Global, handle: &mut Handle, blocks: &mut Blocks) -> u32
    ensures { Looked handle.old.held (λ held. (result ≡ 0) × HasBlockCounts held.volume blocks.new)
        (blocks.new ≡ blocks.old) result handle.new.held }
{
    let Some(mounted) = handle.take(alloc) else {
        return CLOSED;
    };
    let space = mounted.volume.space();
    *blocks = Blocks {
        free: space.free,
        live: space.live,
    };
    handle.put(alloc, mounted);
    OK
}

/// Converts totals to those that C sees.
fn seen(totals: Totals) -> Sums
    ensures { result ≡ sums_of totals }
{
    Sums {
        files: totals.files,
        dirs: totals.dirs,
        bytes: (totals.bytes % (1 << 64)) as u64,
        bytes_above: (totals.bytes / (1 << 64)) as u64,
        live: totals.live,
    }
}

/// Scans the words, and stores the totals of the volume.
#[unsafe(no_mangle)]
pub extern "C" fn bpfs_totals(alloc: Global, handle: &mut Handle, sums: &mut Sums) -> u32
    ensures { Looked handle.old.held (λ held. (result ≡ 0) × HasSums held.volume sums.new)
        (sums.new ≡ sums.old) result handle.new.held }
{
    let Some(mut mounted) = handle.take(alloc) else {
        return CLOSED;
    };
    *sums = seen(mounted.volume.totals());
    handle.put(alloc, mounted);
    OK
}
