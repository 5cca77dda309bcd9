//! Stores of a name.

ghost use Rattle.std.specs.Prelude.{◌+◌, ◌≤◌, length};
ghost use Rattle.bp_read.specs.Written.{HasNameAt, taken_words};
ghost use Rattle.bp_limits.specs.Limits.{entry_words};
ghost use Rattle.bp_limits.specs.CallLimits.{max_name};
ghost use Rattle.bp_read.specs.Within.{IsWithin};
ghost use Rattle.pm_epochs.specs.May.{AnyAt};
ghost use Rattle.pm_region.specs.Memory.{words_in, room_in};
ghost use Rattle.pm_region.specs.Safe.{AddsMay};

use bp_layout::{LENGTH_WORD, NAME_WORD, name_word};
use pm_region::{HEAD_WORDS, Region};

/// Writes a name to the entry at a place of the region: its length in bytes, and its bytes.
pub fn put_name<R: Region>(region: &mut R, place: u64, name: &[u8])
    requires after_head { HEAD_WORDS ≤ place }
    requires in_range { place + entry_words ≤ length (R.memory region.old).base }
    requires short { length name.now ≤ max_name }
    requires room { 31 ≤ room_in (R.memory region.old) }
    ensures stores { AddsMay (AnyAt (IsWithin (place + 1) 31)) 0 31 (R.memory region.old) (R.memory region.new) }
    ensures taken { AddsMay (AnyAt (IsWithin (place + 1) (taken_words name.now))) 0 (taken_words name.now)
        (R.memory region.old) (R.memory region.new) }
    ensures name { HasNameAt (words_in R.memory region.new) place name.now }
{
    let _words = region.words();
    region.store_past_head(place + LENGTH_WORD, name.len() as u64);
    for i in 0..name.len().div_ceil(8) {
        region.store_past_head(place + NAME_WORD + i as u64, name_word(name, i));
    }
}
