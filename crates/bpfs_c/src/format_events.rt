//! The events of a format: `bpfs_format_events`.
ghost use Rattle.bpfs_c.specs.Formats.{ReportsFormat};

use crate::codes::{NO_MEMORY, OK, OUT_OF_RANGE};
use crate::log::{Logged, copy_events};
use bp_limits::{BLOCK_WORDS, MAX_BLOCKS, MIN_BLOCKS, Version};
use bp_mount::lay_first_blocks;
use pm_runs::RedoRegion;
use std::alloc::Global;

/// Copies the events that make an empty file system of this version and this number of blocks, whatever the words
/// hold.
#[unsafe(no_mangle)]
pub extern "C" fn bpfs_format_events(
    alloc: Global,
    blocks: u32,
    version: u32,
    into: &mut [Logged],
    count: &mut usize,
) -> u32
    ensures { ReportsFormat blocks version into.old count.old result into.new count.new }
{
    let version = match version {
        1 => Version::One,
        2 => Version::Two,
        3 => Version::Three,
        _ => return OUT_OF_RANGE,
    };
    if blocks < MIN_BLOCKS || MAX_BLOCKS < blocks {
        return OUT_OF_RANGE;
    }
    let mut region = match RedoRegion::new(alloc, 2 * BLOCK_WORDS, 18) {
        Ok(region) => region,
        Err(_) => return NO_MEMORY,
    };
    lay_first_blocks(&mut region, version, blocks);
    *count = copy_events(&region, 0, into);
    OK
}
