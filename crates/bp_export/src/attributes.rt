//! The lines of attributes.

ghost use Rattle.std.specs.Prelude.{All, true, ◌<◌, ◌≡◌, length};
ghost use Rattle.bp_export.specs.Report.{ReportsAmong, WritesInode, attribute_call};
ghost use Rattle.bp_layout.specs.Formatted.{version_of};
ghost use Rattle.bp_layout.specs.Inode.{attributes_of};
ghost use Rattle.bp_limits.specs.CallLimits.{allows_attributes};
ghost use Rattle.bp_plain.specs.Export.{sets_of};
ghost use Rattle.bp_script.specs.Export.{FitsText};
ghost use Rattle.pm_region.specs.Memory.{words_in};

use crate::lines::report;
use bp_io::{Failed, Sink};
use bp_limits::{ATTRIBUTE_FIELD, ATTRIBUTES, SUPER_MAGIC, Version};
use bp_plain::Call;
use bp_read::inodes::place;
use bp_replies::Replies;
use pm_region::Region;

/// Returns whether inodes have attributes in the version of the image.
pub(crate) fn has_attributes<R: Region>(region: &R) -> bool
    requires { 0 < length (words_in R.memory region.now) }
    ensures { result ≡ allows_attributes (version_of (words_in R.memory region.now)) }
{
    let _words = region.words();
    region.load(SUPER_MAGIC) == Version::Three.magic()
}

/// Writes the line that gives attribute `number` this value at a path, unless the value is 0.
fn export_attribute<K: Sink>(
    path: &[u8],
    number: u64,
    value: u64,
    replies: &mut Replies,
    out: &mut K,
) -> Result<(), Failed>
    requires { All FitsText (attribute_call path.now number value) }
    ensures { ReportsAmong (attribute_call path.now number value)
        result replies.old (K.view out.old) replies.new (K.view out.new) }
{
    if value == 0 {
        return Ok(());
    }
    let call = Call::SetAttribute {
        path,
        number,
        value,
    };
    report(call, replies, out)
}

/// Writes the lines that set the attributes of an inode at its path, except those that are 0. The image has version 3.
/// This is a function of its own, so that an export of an earlier version saves no registers for it.
#[inline(never)]
fn export_each<R: Region, K: Sink>(
    region: &R,
    ino: u32,
    path: &[u8],
    replies: &mut Replies,
    out: &mut K,
) -> Result<(), Failed>
    requires inode { WritesInode (words_in R.memory region.now) ino true }
    requires short { All FitsText (sets_of path.now (attributes_of (words_in R.memory region.now) ino)) }
    ensures { ReportsAmong (sets_of path.now (attributes_of (words_in R.memory region.now) ino))
        result replies.old (K.view out.old) replies.new (K.view out.new) }
{
    let first = place(region, ino, ATTRIBUTE_FIELD);
    // A region has fewer than 2^41 words, so the places fit.
    let _words = region.words();
    for number in 0..ATTRIBUTES {
        let value = region.load(first + number);
        export_attribute(path, number, value, replies, out)?;
    }
    Ok(())
}

/// Writes the lines that set the attributes of an inode at its path, except those that are 0. `attributes` says whether
/// inodes have attributes; if not, no word of the inode is read.
///
/// # Errors
///
/// * `Failed`: the sink failed.
// Inlined, so that an earlier version costs one test for each inode. A call takes 1.2 % of an export of empty files.
#[inline(always)]
pub(crate) fn export_attributes<R: Region, K: Sink>(
    region: &R,
    ino: u32,
    attributes: bool,
    path: &[u8],
    replies: &mut Replies,
    out: &mut K,
) -> Result<(), Failed>
    requires inode { WritesInode (words_in R.memory region.now) ino attributes }
    requires short { All FitsText (sets_of path.now (attributes_of (words_in R.memory region.now) ino)) }
    ensures { ReportsAmong (sets_of path.now (attributes_of (words_in R.memory region.now) ino))
        result replies.old (K.view out.old) replies.new (K.view out.new) }
{
    if !attributes {
        return Ok(());
    }
    export_each(region, ino, path, replies, out)
}
