//! The lines of a file.

ghost use Rattle.std.specs.Prelude.{All, IfOk, ◌*◌, ◌<◌, ◌≡◌, length};
ghost use Rattle.bp_layout.specs.Tree.{IsSound};
ghost use Rattle.bp_limits.specs.Limits.{block_size};
ghost use Rattle.bp_plain.specs.Export.{is_zeros, size_call, write_of, writes_of};
ghost use Rattle.bp_script.specs.Export.{FitsText};
ghost use Rattle.bp_export.specs.Report.{ReportsAmong, calls_to_make, content_in, size_after, write_end};
ghost use Rattle.pm_region.specs.Memory.{words_in};

use crate::lines::report;
use bp_io::{Failed, Sink};
use bp_limits::BLOCK_SIZE;
use bp_plain::Call;
use bp_read::{Tree, next_leaf, read};
use bp_replies::Replies;
use pm_region::Region;

/// Whether all of these bytes are 0.
fn are_zeros(bytes: &[u8]) -> bool
    ensures { result ≡ is_zeros bytes.now }
{
    bytes.iter().all(|byte| *byte == 0)
}

/// Writes the line for the stretch of a file in a leaf below its size, unless it is all zeros, and returns where the
/// stretch ends.
fn export_stretch<R: Region, K: Sink>(
    region: &R,
    tree: Tree,
    leaf: u64,
    path: &[u8],
    block: &mut [u8],
    replies: &mut Replies,
    out: &mut K,
) -> Result<Option<u64>, Failed>
    requires sound { IsSound (words_in R.memory region.now) tree.root tree.size }
    requires live { block_size * leaf < tree.size }
    requires room { length block.old ≡ block_size }
    requires short { All FitsText (write_of path.now (content_in (R.memory region.now) tree) leaf) }
    ensures noted { let bytes = content_in (R.memory region.now) tree in
        IfOk result (λ end. end ≡ write_end bytes leaf tree.size) }
    ensures lines { ReportsAmong (write_of path.now (content_in (R.memory region.now) tree) leaf)
        result replies.old (K.view out.old) replies.new (K.view out.new) }
    ensures room { length block.new ≡ block_size }
{
    let offset = BLOCK_SIZE * leaf;
    let count = read(region, tree, offset, block);
    let bytes = &block[..count];
    if are_zeros(bytes) {
        return Ok(None);
    }
    report(
        Call::Write {
            path,
            offset,
            bytes,
        },
        replies,
        out,
    )?;
    Ok(Some(offset + count as u64))
}

/// Writes the lines for the stretches of a file that are not all zeros, and returns where the last of them ends. A
/// missing leaf is skipped together with all missing leaves next to it.
fn export_leaves<R: Region, K: Sink>(
    region: &R,
    tree: Tree,
    path: &[u8],
    block: &mut [u8],
    replies: &mut Replies,
    out: &mut K,
) -> Result<u64, Failed>
    requires sound { IsSound (words_in R.memory region.now) tree.root tree.size }
    requires room { length block.old ≡ block_size }
    requires short { All FitsText (writes_of path.now (content_in (R.memory region.now) tree)) }
    ensures noted { let bytes = content_in (R.memory region.now) tree in
        IfOk result (λ noted. size_after path.now noted tree.size ≡ size_call path.now bytes) }
    ensures lines { ReportsAmong (writes_of path.now (content_in (R.memory region.now) tree))
        result replies.old (K.view out.old) replies.new (K.view out.new) }
    ensures room { length block.new ≡ block_size }
{
    let mut noted = 0;
    let mut from = 0;
    while let Some(leaf) = next_leaf(region, tree, from) {
        let end = export_stretch(region, tree, leaf, path, block, replies, out)?;
        noted = end.unwrap_or(noted);
        from = leaf + 1;
    }
    Ok(noted)
}

/// Writes the line for the size of a file, unless the last written stretch ends there.
fn export_size<K: Sink>(
    path: &[u8],
    noted: u64,
    size: u64,
    replies: &mut Replies,
    out: &mut K,
) -> Result<(), Failed>
    requires { All FitsText (size_after path.now noted size) }
    ensures { ReportsAmong (size_after path.now noted size) result replies.old (K.view out.old) replies.new (K.view out.new) }
{
    if noted == size {
        return Ok(());
    }
    report(Call::Truncate { path, size }, replies, out)
}

/// Writes the lines that make the file with this tree at a path: that it exists, its bytes, and its size if no bytes
/// determine it. `block` is memory for the bytes of a block, so that a walk over a tree keeps none on its stack.
///
/// # Errors
///
/// * `Failed`: the sink failed.
pub(crate) fn export_file<R: Region, K: Sink>(
    region: &R,
    tree: Tree,
    path: &[u8],
    block: &mut [u8],
    replies: &mut Replies,
    out: &mut K,
) -> Result<(), Failed>
    requires sound { IsSound (words_in R.memory region.now) tree.root tree.size }
    requires room { length block.old ≡ block_size }
    requires short { All FitsText (calls_to_make path.now (R.memory region.now) tree) }
    ensures lines { ReportsAmong (calls_to_make path.now (R.memory region.now) tree)
        result replies.old (K.view out.old) replies.new (K.view out.new) }
    ensures room { length block.new ≡ block_size }
{
    report(Call::Create(path), replies, out)?;
    let noted = export_leaves(region, tree, path, block, replies, out)?;
    export_size(path, noted, tree.size, replies, out)
}
