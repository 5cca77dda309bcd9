//! Theorems on what a change keeps. Each is the contract of a function with an empty body.

ghost use Rattle.bp_changes.specs.Harmless.{Agrees};
ghost use Rattle.bp_layout.specs.Same.{Same};
ghost use Rattle.bp_layout.specs.WellFormed.{IsWellFormed};

/// States that harmless words, stored in a well-formed image, make a well-formed image with the same contents at each
/// path.
pub fn harmless_words_show_the_same(old: &[u64], new: &[u64])
    requires well_formed { IsWellFormed old.now }
    requires agrees { Agrees old.now new.now }
    ensures { Same old.now new.now }
{}
