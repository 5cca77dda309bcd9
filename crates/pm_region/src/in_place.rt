//! The commit of one word in place.

ghost use Rattle.std.specs.Prelude.{◌<◌, ◌≤◌, length};
ghost use Rattle.pm_epochs.specs.Crash.{commit};
ghost use Rattle.pm_region.specs.Memory.{room_in, Adds};

use crate::region::Region;

/// Stores one word alone in its epoch: all earlier stores are written back before it, and it before all later ones.
/// `word` is an index in the region, in words. Takes three entries of the log.
pub fn commit_word<R: Region>(region: &mut R, word: u64, value: u64)
    requires in_range { word < length (R.memory region.old).base }
    requires room { 3 ≤ room_in (R.memory region.old) }
    ensures { Adds (R.memory region.old) (R.memory region.new) (commit word value) }
{
    region.barrier();
    region.store(word, value);
    region.barrier();
}
