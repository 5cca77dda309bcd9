//! The blocks of the snapshot on the ways to some words.

ghost use Rattle.std.specs.Prelude.{◌≡◌, ◌+◌, ◌<◌, ◌≤◌, ◌==◌, [], ◌∷◌, ◌++◌, true, false, length};
ghost use Rattle.std.specs.List.{list_any};
ghost use Rattle.bp_free.specs.Set.{has};
ghost use Rattle.bp_layout.specs.Members.{Has};
ghost use Rattle.bp_layout.specs.WellFormed.{IsWellFormed};
ghost use Rattle.bp_layout.specs.WordPaths.{WordPath};
ghost use Rattle.bp_layout.specs.Words.{block_count};
ghost use Rattle.pm_region.specs.Memory.{words_in};
ghost use Rattle.bp_thaw.specs.Prefixes.{FindsOn, IsWayIn, places_found};
ghost use Rattle.bp_thaw.specs.Thaws.{paths_in};

use crate::ways::is_there;
use arrayvec::ArrayVec;
use bp_free::Blocks;
use bp_limits::{BLOCK_WORDS, SUPER_ROOT};
use bp_read::Slots;
use pm_region::Region;

/// Places of pointers: as many as eight ways of twelve slots can have.
pub(crate) type Places = ArrayVec<u64, 96>;

/// Returns whether a place is in the list.
fn has_place(places: &Places, place: u64) -> bool
    ensures { result ≡ list_any (λ other. other == place) places.now.items }
{
    for i in 0..places.len() {
        if places[i] == place {
            return true;
        }
    }
    false
}

/// Adds a place, unless it is in the list.
fn add_place(places: &mut Places, place: u64)
    requires { length places.old.items < 96 }
    ensures old { list_any (λ other. other == place) places.old.items ≡ true → places.new.items ≡ places.old.items }
    ensures new { list_any (λ other. other == place) places.old.items ≡ false →
        places.new.items ≡ places.old.items ++ place ∷ [] }
    ensures few { length places.new.items ≤ length places.old.items + 1 }
{
    if !has_place(places, place) {
        places.push(place);
    }
}

/// Adds the places of the pointers on a way that lead to blocks of the snapshot, unless they are in the list.
fn find_on<R: Region>(region: &R, snapshot_blocks: &Blocks, way: &Slots, places: &mut Places)
    requires well_formed { IsWellFormed (words_in R.memory region.now) }
    requires snapshot_blocks { block_count (words_in R.memory region.now) ≤ length snapshot_blocks.now }
    requires way { IsWayIn (words_in R.memory region.now) way.now.items }
    requires room { length places.old.items + 12 ≤ 96 }
    ensures places { FindsOn (words_in R.memory region.now) (has snapshot_blocks.now) way.now.items
        places.old.items places.new.items }
    ensures few { length places.new.items ≤ length places.old.items + 12 }
{
    let mut place = SUPER_ROOT;
    let end = way.len();
    for depth in 0..end {
        if !is_there(region, way, depth) {
            return;
        }
        let block = pm_words::block_of(region.load(place)) as u32;
        if snapshot_blocks.is_free(block) {
            add_place(places, place);
        }
        place = BLOCK_WORDS * block as u64 + u64::from(way[depth]);
    }
}

/// Returns the places of the pointers on the ways that lead to blocks of the snapshot, each once.
pub(crate) fn find<R: Region>(
    region: &R,
    snapshot_blocks: &Blocks,
    ways: &ArrayVec<Slots, 8>,
) -> Places
    requires well_formed { IsWellFormed (words_in R.memory region.now) }
    requires snapshot_blocks { block_count (words_in R.memory region.now) ≤ length snapshot_blocks.now }
    requires ways { (way : WordPath) → Has (paths_in ways.now) way → IsWayIn (words_in R.memory region.now) way }
    ensures { result.items ≡ places_found (words_in R.memory region.now) (has snapshot_blocks.now) (paths_in ways.now) }
{
    let mut places = Places::new();
    for i in 0..ways.len() {
        find_on(region, snapshot_blocks, &ways[i], &mut places);
    }
    places
}
