//! The program `format`.

ghost use Rattle.bp_io.specs.Causes.{HasCause};
ghost use Rattle.bp_io.specs.Files.{resized_file};
ghost use Rattle.bp_layout.specs.Bytes.{image_bytes};
ghost use Rattle.bp_limits.specs.Limits.{block_size, block_words};
ghost use Rattle.bp_io.specs.Views.{HasBytes};
ghost use Rattle.bp_shell.specs.Answering.{EndsUnread};
ghost use Rattle.bp_shell.specs.Formatting.{LeavesPartly, OnlyMakes, new_image};
ghost use Rattle.bp_shell.specs.Running.{FormatOutcome};
ghost use Rattle.pm_region.specs.Memory.{words_in};
ghost use Rattle.std.specs.Prelude.{◌%◌, ◌*◌, ◌/◌, ◌≡◌, ◌≤◌, [], true, IfOk, OnErr, OnOk, length, replicate};

use crate::output::print;
use crate::status::Status;
use bp_io::{Access, Failed, Files, Sink};
use bp_limits::{BLOCK_SIZE, BLOCK_WORDS, MAX_FILE_BLOCKS, MIN_BLOCKS, Version};
use bp_mount::lay_first_blocks;
use bp_script::Notice;
use bp_session::blocks::read_blocks;
use pm_region::{ListRegion, Region};
use std::alloc::{AllocError, Global};

/// The number of blocks of a new file system that are not zeros: the superblock and the first block of inodes.
const FIRST_BLOCKS: u32 = 2;

/// The number of events for which the log of a format needs room.
const FORMAT_ROOM: usize = 18;

/// Makes a region of the first blocks of a file system, whose words are 0.
fn empty_first_blocks(alloc: Global) -> Result<ListRegion, AllocError>
    ensures words { IfOk result (λ region. region.base ≡ replicate (block_words * FIRST_BLOCKS) 0) }
    ensures drained { IfOk result (λ region. region.events ≡ []) }
    ensures room { IfOk result (λ region. region.capacity ≡ FORMAT_ROOM) }
{
    let words = vec![in alloc; 0u64; (BLOCK_WORDS * FIRST_BLOCKS as u64) as usize]?;
    let region = ListRegion::new(alloc, words, FORMAT_ROOM)?;
    Ok(region)
}

/// Converts a region to its bytes, with its words as they are now.
fn encode<R: Region>(alloc: Global, region: &R) -> Result<Vec<u8>, AllocError>
    requires whole { length (R.memory region.now).base % block_words ≡ 0 }
    requires most { length (R.memory region.now).base ≤ block_words * MAX_FILE_BLOCKS }
    ensures { IfOk result (λ bytes. bytes.items ≡ image_bytes (words_in R.memory region.now)) }
{
    let mut bytes = vec![in alloc; 0u8; 8 * region.words() as usize]?;
    read_blocks(region, 0, &mut bytes);
    Ok(bytes)
}

/// Makes the first blocks of a new file system of this number of blocks and this version. All blocks after them are
/// zeros.
fn new_first_blocks(alloc: Global, blocks: u32, version: Version) -> Result<Vec<u8>, AllocError>
    requires { FIRST_BLOCKS ≤ blocks }
    ensures size { IfOk result (λ prefix. length prefix.items ≡ block_size * FIRST_BLOCKS) }
    ensures image { IfOk result (λ prefix. resized_file (block_size * blocks) prefix.items
        ≡ image_bytes (new_image version blocks)) }
{
    let mut region = empty_first_blocks(alloc)?;
    lay_first_blocks(&mut region, version, blocks);
    let prefix = encode(alloc, &region)?;
    Ok(prefix)
}

/// Replaces the file of a name by this number of blocks: these bytes, and zeros after them.
fn write_image<F: Files>(
    prefix: &[u8],
    name: &str,
    blocks: u32,
    files: &mut F,
) -> Result<(), Failed>
    requires whole { length prefix.now % BLOCK_SIZE ≡ 0 }
    requires inside { length prefix.now / BLOCK_SIZE ≤ blocks }
    requires most { blocks ≤ MAX_FILE_BLOCKS }
    ensures written { OnOk result (HasBytes ((F.view files.new).contents name.now)
        (resized_file (block_size * blocks) prefix.now)) }
    ensures flushed { OnOk result ((F.view files.new).is_flushed ≡ true) }
    ensures partly { OnErr result (LeavesPartly name.now (resized_file (block_size * blocks) prefix.now)
        (F.view files.old) (F.view files.new)) }
    ensures makes { OnlyMakes name.now (F.view files.old) (F.view files.new) }
    ensures cause { HasCause (F.view files.old).faults (F.view files.new).faults result }
{
    match files.attach(name, Access::Make)? {
        Some(_) => {}
        None => unreachable!(),
    }
    files.replace(prefix, blocks)?;
    files.flush()?;
    Ok(())
}

/// Formats the file of a name as a file system of this number of blocks and this version, and prints a line. The
/// status is `Done`, `SinkFailed`, `FilesFailed` or `Memory`.
pub(crate) fn format_file<K: Sink, F: Files>(
    alloc: Global,
    name: &str,
    blocks: u32,
    version: Version,
    out: &mut K,
    files: &mut F,
) -> Status
    requires least { MIN_BLOCKS ≤ blocks }
    requires most { blocks ≤ MAX_FILE_BLOCKS }
    // Whatever bytes a source has left.
    ensures outcome { EndsUnread (FormatOutcome result version blocks) name.now
        (K.view out.old) (F.view files.old) (K.view out.new) (F.view files.new) }
    ensures makes { OnlyMakes name.now (F.view files.old) (F.view files.new) }
{
    let prefix = match new_first_blocks(alloc, blocks, version) {
        Ok(prefix) => prefix,
        Err(_) => return Status::Memory,
    };
    match write_image(&prefix, name, blocks, files) {
        Ok(()) => {}
        Err(Failed) => return Status::FilesFailed,
    }
    let notice = Notice::Formatted {
        blocks,
        free: blocks - 2,
    };
    match print(&notice, out) {
        Ok(()) => Status::Done,
        Err(Failed) => Status::SinkFailed,
    }
}
