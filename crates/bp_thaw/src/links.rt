//! Pointers that are set to copies in place.

ghost use Rattle.std.specs.Prelude.{◌≡◌, ◌+◌, ◌/◌, ◌<◌, ◌≤◌, ◌++◌, ◌∷◌, [], length};
ghost use Rattle.pm_epochs.specs.declared.event.Event.TheVariants.{Barrier};
ghost use Rattle.pm_epochs.specs.May.{links_of};
ghost use Rattle.pm_region.specs.Memory.{Adds, words_in, room_in};
ghost use Rattle.bp_thaw.specs.Copies.{is_copied, links_among};
ghost use Rattle.bp_thaw.specs.Steps.{ArePlacesOf};

use crate::copies::{Copies, pointing_to};
use arrayvec::ArrayVec;
use bp_limits::BLOCK_WORDS;
use pm_region::Region;

/// Places of pointers, and the values to store there.
pub(crate) type Links = ArrayVec<(u64, u64), 96>;

/// Returns whether a block is copied.
fn is_copied<R: Region>(region: &R, copies: &Copies, block: u64) -> bool
    requires { ArePlacesOf (words_in R.memory region.now) copies.now.items }
    ensures { result ≡ is_copied (words_in R.memory region.now) copies.now.items block }
{
    for i in 0..copies.len() {
        let (place, _) = copies[i];
        if pm_words::block_of(region.load(place)) == block {
            return true;
        }
    }
    false
}

/// Returns the pointers to copies that are in blocks that are not copied.
pub(crate) fn links_to<R: Region>(region: &R, copies: &Copies) -> Links
    requires { ArePlacesOf (words_in R.memory region.now) copies.now.items }
    ensures { result.items ≡ links_among (words_in R.memory region.now) copies.now.items copies.now.items }
{
    let mut links = Links::new();
    for i in 0..copies.len() {
        let (place, copy) = copies[i];
        if !is_copied(region, copies, place / BLOCK_WORDS) {
            links.push((place, pointing_to(region.load(place), copy)));
        }
    }
    links
}

/// Stores these pointers, in an epoch of their own.
pub(crate) fn store_links<R: Region>(region: &mut R, links: &Links)
    requires places { ArePlacesOf (words_in R.memory region.old) links.now.items }
    requires room { length links.now.items + 2 ≤ room_in (R.memory region.old) }
    ensures { Adds (R.memory region.old) (R.memory region.new) (Barrier ∷ links_of links.now.items ++ Barrier ∷ []) }
{
    // A crash could keep a pointer and lose words of the copy to which it leads.
    region.barrier();
    for i in 0..links.len() {
        let (place, value) = links[i];
        region.store(place, value);
    }
    // The next store of the call is correct only if all pointers are set: a crash could keep it and only some of them.
    region.barrier();
}
