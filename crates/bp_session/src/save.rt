//! Saving the words of a region to a file.

ghost use Rattle.std.specs.Prelude.{[], ◌≡◌, ◌≢◌, ◌↔◌, ◌≤◌, ◌+◌, ◌*◌, ◌/◌, ◌<◌, ◌^◌, List, ℕ, OnOk, OnErr, false, length, min, true};
ghost use Rattle.bp_io.specs.Causes.{HasCause};
ghost use Rattle.bp_io.specs.Files.{KeepsFiles, KeepsOthers, StaysAttached};
ghost use Rattle.bp_limits.specs.Limits.{block_words, max_file_blocks};
ghost use Rattle.bp_session.specs.Changed.{AreDirty, AreClean, CoversChanges, CoversDrain, is_dirty, dirty_in};
ghost use Rattle.bp_session.specs.Files.{CanSave, StaysKnown};
ghost use Rattle.bp_session.specs.Saving.{KeepsClean, SavesDirty, SavesPartly, SavesWords, SavesWordsPartly};
ghost use Rattle.pm_epochs.specs.Log.{stores};
ghost use Rattle.pm_region.specs.Memory.{words_in, current_words};

use crate::blocks::{RUN_BLOCKS, read_blocks};
use bp_fs::{FileSystem, needs_drain};
use bp_io::{BLOCK, Failed, Files};
use bp_limits::{BLOCK_WORDS, MAX_FILE_BLOCKS};
use pm_epochs::EventKind;
use pm_region::{Region, Row};

/// The greatest number of rows (stores to consecutive words) of a log, for each block of the image, that are searched
/// for the blocks to which they went. If there are more, writing all blocks costs little more than the search.
const MOST_ROWS_A_BLOCK: usize = 4;

/// The blocks of a file that may lack words of the last drain: those of the first `count` that are dirty, and each
/// block past them. It is large: make one for a run.
#[derive(Drop)]
pub struct DirtyBlocks {
    pub(crate) flags: [bool; MAX_FILE_BLOCKS as usize],
    pub(crate) count: usize,
}

impl DirtyBlocks {
    /// Notes as dirty none of this number of blocks, as for a file of that size that was just read. At most
    /// `MAX_FILE_BLOCKS` are kept.
    pub fn none(blocks: u32) -> Self
        ensures none { AreClean (dirty_in result) }
        ensures count { length (dirty_in result) ≡ min blocks max_file_blocks }
    {
        DirtyBlocks {
            flags: [false; MAX_FILE_BLOCKS as usize],
            count: blocks as usize,
        }
    }
}

/// Whether a block is dirty. Each block past the flags is.
fn is_dirty(flags: &[bool], block: u32) -> bool
    ensures { result ≡ is_dirty flags.now block }
{
    let block = block as usize;
    block >= flags.len() || flags[block]
}

/// Notes as dirty each block, or none.
pub(crate) fn dirty_each(flags: &mut [bool], value: bool)
    ensures each { (i : ℕ) → i < length flags.new → is_dirty flags.new i ≡ value }
    ensures size { length flags.new ≡ length flags.old }
{
    flags.fill(value);
}

/// Whether each block is dirty.
fn are_dirty(flags: &[bool]) -> bool
    ensures { result ≡ true ↔ AreDirty flags.now }
{
    !flags.contains(&false)
}

/// Notes as dirty a block, if it is in the list of flags.
fn dirty_block(flags: &mut [bool], block: usize)
    ensures dirtied { is_dirty flags.new block ≡ true }
    ensures more { (i : ℕ) → is_dirty flags.old i ≡ true → is_dirty flags.new i ≡ true }
    ensures size { length flags.new ≡ length flags.old }
{
    if block < flags.len() {
        flags[block] = true;
    }
}

/// Notes as dirty the blocks of `count` consecutive words.
fn dirty_words(flags: &mut [bool], first: u64, count: usize)
    requires some { 0 < count }
    requires fits { first + count ≤ 2 ^ 41 }
    ensures dirtied { (word : ℕ) → first ≤ word → word < first + count → is_dirty flags.new (word / block_words) ≡ true }
    ensures more { (i : ℕ) → is_dirty flags.old i ≡ true → is_dirty flags.new i ≡ true }
    ensures size { length flags.new ≡ length flags.old }
{
    let last = (first as usize + (count - 1)) / BLOCK_WORDS as usize;
    let end = flags.len().min(last + 1);
    let begin = (first / BLOCK_WORDS) as usize;
    // Most rows lie in one block.
    dirty_block(flags, begin);
    for block in begin + 1..end {
        flags[block] = true;
    }
}

/// Notes as dirty the blocks to which a store of the log went, from at most `most` rows of stores. Returns false if the
/// log has more.
fn dirty_rows<R: Region>(region: &R, flags: &mut [bool], most: usize) -> bool
    ensures flags { result ≡ true → CoversChanges flags.new (R.memory region.now).base (words_in R.memory region.now) }
    ensures more { (i : ℕ) → is_dirty flags.old i ≡ true → is_dirty flags.new i ≡ true }
    ensures some { result ≡ false → stores (R.memory region.now).events ≢ [] }
    ensures none { stores (R.memory region.now).events ≡ [] → flags.new ≡ flags.old }
    ensures size { length flags.new ≡ length flags.old }
{
    // There are fewer than 2^41 words.
    let _words = region.words();
    let count = region.event_count();
    let mut left = most;
    let mut i: usize = 0;
    while i < count {
        let Row { kind, len } = region.row(i);
        match kind {
            EventKind::Store(word) => {
                if left == 0 {
                    return false;
                }
                dirty_words(flags, word, len);
                left -= 1;
            }
            EventKind::Barrier => {}
            EventKind::CallEnd => {}
        }
        i += len;
    }
    true
}

/// Notes as dirty the blocks to which a store of the log went, or all blocks if the log has more rows of stores than
/// are searched. A log without a store flags none. If each block is dirty already, the log is not searched. This is a
/// function of its own, so that a line that drains nothing only asks for the log's room.
#[inline(never)]
fn dirty_stored<R: Region>(region: &R, flags: &mut [bool])
    ensures flags { CoversChanges flags.new (R.memory region.now).base (words_in R.memory region.now) }
    ensures more { (i : ℕ) → is_dirty flags.old i ≡ true → is_dirty flags.new i ≡ true }
    ensures none { stores (R.memory region.now).events ≡ [] → flags.new ≡ flags.old }
    ensures size { length flags.new ≡ length flags.old }
{
    if are_dirty(flags) {
        return;
    }
    let blocks = (region.words() / BLOCK_WORDS) as usize;
    if !dirty_rows(region, flags, MOST_ROWS_A_BLOCK * blocks) {
        dirty_each(flags, true);
    }
}

/// Notes as dirty the blocks as `dirty_stored` does, if the next call drains the log: a call drains a log that lacks
/// room for it.
pub(crate) fn dirty_drained<R: Region>(region: &R, flags: &mut [bool])
    ensures { CoversDrain (R.memory region.now) flags.old flags.new }
{
    if needs_drain(region) {
        dirty_stored(region, flags);
    }
}

/// Counts the consecutive dirty blocks from `first` on, up to the number that one call writes.
fn dirty_run(flags: &[bool], first: u32, count: u32) -> u32
    requires { first < count }
    ensures dirtied { (k : ℕ) → k < result → is_dirty flags.now (first + k) ≡ true }
    ensures none { result ≡ 0 → is_dirty flags.now first ≡ false }
    ensures fits { first + result ≤ count }
    ensures most { result ≤ RUN_BLOCKS }
{
    let most = RUN_BLOCKS.min(count - first);
    let mut run = 0;
    while run < most && is_dirty(flags, first + run) {
        run += 1;
    }
    run
}

/// Writes each dirty block to the attached file, in order.
fn write_changed<R: Region, F: Files>(
    region: &R,
    flags: &[bool],
    files: &mut F,
) -> Result<(), Failed>
    requires { CanSave (R.memory region.now).base (F.view files.old) }
    ensures saved { OnOk result (SavesDirty flags.now (words_in R.memory region.now) (F.view files.old) (F.view files.new)) }
    ensures partly { OnErr result (SavesPartly (words_in R.memory region.now) (F.view files.old) (F.view files.new)) }
    ensures kept { AreClean flags.now → length (R.memory region.now).base ≤ block_words * length flags.now →
        F.view files.new ≡ F.view files.old }
    ensures reported { StaysKnown (F.view files.old) (F.view files.new) }
    ensures others { KeepsOthers (F.view files.old) (F.view files.new) }
    ensures attached { StaysAttached (F.view files.old) (F.view files.new) }
    ensures cause { HasCause (F.view files.old).faults (F.view files.new).faults result }
{
    let count = (region.words() / BLOCK_WORDS) as u32;
    let mut bytes = [0u8; BLOCK * RUN_BLOCKS as usize];
    let mut first = 0;
    while first < count {
        let run = dirty_run(flags, first, count);
        if run == 0 {
            first += 1;
            continue;
        }
        let from = &mut bytes[..BLOCK * run as usize];
        read_blocks(region, first, from);
        files.write_blocks(first, from)?;
        first += run;
    }
    Ok(())
}

/// Flushes the attached file.
fn flush<F: Files>(files: &mut F) -> Result<(), Failed>
    requires attached { (name : List ℕ) × ((F.view files.old).is_attached name ≡ true) }
    requires may_write { (F.view files.old).may_write ≡ true }
    ensures contents { KeepsFiles (F.view files.old) (F.view files.new) }
    ensures attached { StaysAttached (F.view files.old) (F.view files.new) }
    ensures flushed { OnOk result ((F.view files.new).is_flushed ≡ true) }
    ensures cause { HasCause (F.view files.old).faults (F.view files.new).faults result }
{
    files.flush()
}

/// Writes each dirty block to the attached file, in order, and flushes the file.
fn save<R: Region, F: Files>(region: &R, flags: &[bool], files: &mut F) -> Result<(), Failed>
    requires { CanSave (R.memory region.now).base (F.view files.old) }
    ensures saved { OnOk result (SavesDirty flags.now (words_in R.memory region.now) (F.view files.old) (F.view files.new)) }
    ensures partly { OnErr result (SavesPartly (words_in R.memory region.now) (F.view files.old) (F.view files.new)) }
    ensures kept { AreClean flags.now → length (R.memory region.now).base ≤ block_words * length flags.now →
        KeepsFiles (F.view files.old) (F.view files.new) }
    ensures flushed { OnOk result ((F.view files.new).is_flushed ≡ true) }
    ensures reported { StaysKnown (F.view files.old) (F.view files.new) }
    ensures others { KeepsOthers (F.view files.old) (F.view files.new) }
    ensures attached { StaysAttached (F.view files.old) (F.view files.new) }
    ensures cause { HasCause (F.view files.old).faults (F.view files.new).faults result }
{
    write_changed(region, flags, files)?;
    flush(files)
}

/// Syncs and saves, as `sync_and_save` does, by the flags of the blocks. If there are fewer flags than blocks of the
/// file, the blocks past them are written too.
pub(crate) fn sync_dirty<V: FileSystem, F: Files>(
    system: &mut V,
    dirty: &mut [bool],
    files: &mut F,
) -> Result<(), Failed>
    requires { CanSave (V.behaviour.memory (V.state system.old)).base (F.view files.old) }
    ensures drained { V.state system.new ≡ V.behaviour.drained (V.state system.old) }
    ensures saved { OnOk result (SavesWords dirty.old (V.behaviour.memory (V.state system.old)) (F.view files.old) (F.view files.new)) }
    ensures partly { OnErr result (SavesWordsPartly (current_words (V.behaviour.memory (V.state system.old))) (F.view files.old) (F.view files.new)) }
    ensures kept { KeepsClean dirty.old (V.behaviour.memory (V.state system.old)) (F.view files.old) (F.view files.new) }
    ensures cleared { OnOk result (AreClean dirty.new) }
    ensures lost { OnErr result (AreDirty dirty.new) }
    ensures flushed { OnOk result ((F.view files.new).is_flushed ≡ true) }
    ensures reported { StaysKnown (F.view files.old) (F.view files.new) }
    ensures others { KeepsOthers (F.view files.old) (F.view files.new) }
    ensures attached { StaysAttached (F.view files.old) (F.view files.new) }
    ensures cause { HasCause (F.view files.old).faults (F.view files.new).faults result }
{
    dirty_stored(system.region(), dirty);
    system.sync();
    match save(system.region(), dirty, files) {
        Ok(()) => {
            dirty_each(dirty, false);
            Ok(())
        }
        Err(Failed) => {
            dirty_each(dirty, true);
            Err(Failed)
        }
    }
}

/// Waits until all that the calls so far have done is written back, saves the words to the attached file, and flushes
/// it. Only the dirty blocks and those to which a store went since the last drain are written; or all blocks, if the
/// log has more than four rows of stores a block. After a save no block in the list of flags is dirty; after a
/// failed save each block counts as dirty.
pub fn sync_and_save<V: FileSystem, F: Files>(
    system: &mut V,
    dirty: &mut DirtyBlocks,
    files: &mut F,
) -> Result<(), Failed>
    requires { CanSave (V.behaviour.memory (V.state system.old)).base (F.view files.old) }
    ensures drained { V.state system.new ≡ V.behaviour.drained (V.state system.old) }
    ensures saved { OnOk result (SavesWords (dirty_in dirty.old) (V.behaviour.memory (V.state system.old)) (F.view files.old) (F.view files.new)) }
    ensures partly { OnErr result (SavesWordsPartly (current_words (V.behaviour.memory (V.state system.old))) (F.view files.old) (F.view files.new)) }
    ensures kept { KeepsClean (dirty_in dirty.old) (V.behaviour.memory (V.state system.old)) (F.view files.old) (F.view files.new) }
    ensures cleared { OnOk result (AreClean (dirty_in dirty.new)) }
    ensures lost { OnErr result (AreDirty (dirty_in dirty.new)) }
    ensures flushed { OnOk result ((F.view files.new).is_flushed ≡ true) }
    ensures reported { StaysKnown (F.view files.old) (F.view files.new) }
    ensures others { KeepsOthers (F.view files.old) (F.view files.new) }
    ensures attached { StaysAttached (F.view files.old) (F.view files.new) }
    ensures cause { HasCause (F.view files.old).faults (F.view files.new).faults result }
{
    let count = dirty.count.min(dirty.flags.len());
    sync_dirty(system, &mut dirty.flags[..count], files)
}
