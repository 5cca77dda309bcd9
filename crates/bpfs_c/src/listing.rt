//! Listings of directories: `bpfs_list`, `bpfs_listed`.

ghost use Rattle.std.specs.Prelude.{◌≡◌};
ghost use Rattle.bp_plain.specs.Calls.Call.{list};
ghost use Rattle.bp_volume.specs.Seen.{list_answer_of};
ghost use Rattle.bpfs_c.specs.Codes.{IsListed};
ghost use Rattle.bpfs_c.specs.Exports.{LooksAtName};
ghost use Rattle.bpfs_c.specs.Listings.{ReportsName, entry_at, listing_after};
ghost use Rattle.bpfs_c.specs.Serves.{Asks};

use crate::codes::{CLOSED, OK, OUT_OF_RANGE, number_of};
use crate::handle::Handle;
use bp_layout::{Kind, Listing};
use bp_plain::FsError;
use std::alloc::Global;

/// Keeps a listing, stores the number of its entries, and returns the number of the call's end.
pub(crate) fn keep(
    kept: &mut Option<Listing>,
    ending: Result<Listing, FsError>,
    count: &mut usize,
) -> u32
    ensures reported { IsListed (list_answer_of ending) count.old result count.new }
    ensures kept { kept.new ≡ listing_after (list_answer_of ending) kept.old }
{
    match ending {
        Ok(listing) => {
            *count = listing.len();
            *kept = Some(listing);
            OK
        }
        Err(error) => number_of(error),
    }
}

/// Lists a directory. The handle keeps the entries until the next listing.
#[unsafe(no_mangle)]
pub extern "C" fn bpfs_list(
    alloc: Global,
    handle: &mut Handle,
    path: &[u8],
    count: &mut usize,
) -> u32
    ensures { Asks handle.old.held (list path.now) (λ answer. IsListed answer count.old result count.new)
        (count.new ≡ count.old) result handle.new.held }
{
    let Some(mut mounted) = handle.take(alloc) else {
        return CLOSED;
    };
    let ending = mounted.volume.look_list(alloc, path);
    let code = keep(&mut mounted.listing, ending, count);
    handle.put(alloc, mounted);
    code
}

/// Copies the name and the kind of the entry at an index of a listing.
fn copy_name(
    listing: &Option<Listing>,
    index: usize,
    name: &mut [u8],
    length: &mut usize,
    is_dir: &mut bool,
) -> u32
    ensures { ReportsName (entry_at listing.now index) name.old length.old is_dir.old result name.new length.new
        is_dir.new }
{
    let Some(listing) = listing else {
        return OUT_OF_RANGE;
    };
    if listing.len() <= index {
        return OUT_OF_RANGE;
    }
    let (kind, text) = listing.at(index);
    if name.len() < text.len() {
        return OUT_OF_RANGE;
    }
    name[..text.len()].copy_from_slice(text);
    *length = text.len();
    *is_dir = kind == Kind::Dir;
    OK
}

/// Gets the entry at an index of the last listing: its name, the length of the name, and whether it is a directory's.
#[unsafe(no_mangle)]
pub extern "C" fn bpfs_listed(
    alloc: Global,
    handle: &mut Handle,
    index: usize,
    name: &mut [u8],
    length: &mut usize,
    is_dir: &mut bool,
) -> u32
    ensures { LooksAtName handle.old.held index name.old length.old is_dir.old
        result name.new length.new is_dir.new handle.new.held }
{
    let Some(mounted) = handle.take(alloc) else {
        return CLOSED;
    };
    let code = copy_name(&mounted.listing, index, name, length, is_dir);
    handle.put(alloc, mounted);
    code
}
