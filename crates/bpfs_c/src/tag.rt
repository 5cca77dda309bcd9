//! The tag: a number that the caller keeps with a mounted volume.

ghost use Rattle.std.specs.Prelude.{◌≡◌};
ghost use Rattle.bpfs_c.specs.Tags.{IsTagged, held_tag};

use crate::codes::{CLOSED, OK};
use crate::handle::Handle;
use std::alloc::Global;

/// Sets the tag of the mounted volume. It is 0 after a mount, and no other call changes it.
#[unsafe(no_mangle)]
pub extern "C" fn bpfs_set_tag(alloc: Global, handle: &mut Handle, tag: u64) -> u32
    ensures { IsTagged handle.old.held tag result handle.new.held }
{
    let Some(mut mounted) = handle.take(alloc) else {
        return CLOSED;
    };
    mounted.tag = tag;
    handle.put(alloc, mounted);
    OK
}

/// Returns the tag of the mounted volume, or 0 for a closed handle.
#[unsafe(no_mangle)]
pub extern "C" fn bpfs_tag(alloc: Global, handle: &mut Handle) -> u64
    ensures tag { result ≡ held_tag handle.old.held }
    ensures same { handle.new.held ≡ handle.old.held }
{
    let Some(mounted) = handle.take(alloc) else {
        return 0;
    };
    let tag = mounted.tag;
    handle.put(alloc, mounted);
    tag
}
