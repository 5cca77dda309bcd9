//! Theorems on preparations within a call. Each is the contract of a function with an empty body.

ghost use Rattle.bp_append.specs.SizeStores.{GrownFilesArePerformed};

/// States that a file that grows by a preparation and a store of its size is a performed call: it takes the blocks of
/// its need, and its last store is at the word of the cover.
pub fn grown_files_are_performed()
    ensures { GrownFilesArePerformed }
{}
