//! Whether a block of the snapshot is on a way.

ghost use Rattle.std.specs.Prelude.{◌≡◌, ◌↔◌, ℕ, ◌<◌, ◌≤◌, [], ◌∷◌, length, take, true};
ghost use Rattle.bp_free.specs.Set.{has};
ghost use Rattle.bp_layout.specs.Thaw.{is_there_now, thawed_on};
ghost use Rattle.bp_layout.specs.WellFormed.{IsWellFormed};
ghost use Rattle.bp_layout.specs.Words.{block_count};
ghost use Rattle.pm_region.specs.Memory.{words_in};
ghost use Rattle.bp_thaw.specs.Prefixes.{IsWayIn};

use bp_free::Parts;
use bp_limits::{BLOCK_WORDS, SUPER_ROOT};
use bp_read::Slots;
use pm_region::Region;

/// Returns whether no block of the snapshot is on a way, all of whose pointers exist.
pub fn is_clear<R: Region>(parts: &Parts<R>, way: &Slots) -> bool
    requires well_formed { IsWellFormed (words_in R.memory parts.now.region) }
    requires snapshot_blocks { block_count (words_in R.memory parts.now.region) ≤ length parts.now.snapshot_blocks }
    requires way { IsWayIn (words_in R.memory parts.now.region) way.now.items }
    requires there { (depth : ℕ) → depth < length way.now.items →
        is_there_now (words_in R.memory parts.now.region) (take depth way.now.items) ≡ true }
    ensures { (result ≡ true) ↔
        (thawed_on (words_in R.memory parts.now.region) (has parts.now.snapshot_blocks) (way.now.items ∷ []) ≡ []) }
{
    let mut place = SUPER_ROOT;
    for depth in 0..way.len() {
        let block = pm_words::block_of(parts.region.load(place)) as u32;
        if parts.snapshot_blocks.is_free(block) {
            return false;
        }
        place = BLOCK_WORDS * block as u64 + u64::from(way[depth]);
    }
    true
}
