//! Hashes of names.

ghost use Rattle.std.specs.Prelude.{◌≡◌};
ghost use Rattle.bp_cache.specs.Hashes.{hash_of};

use std::hash::{FoldHasher, Hasher};

/// Returns the hash of a name. The seed of the hash is fixed, so a user who chooses the names can make many hashes
/// equal. An index holds all the names, but a search for one of them looks at the entries of all names with its hash.
#[tactic(auto, unfolding(crate::specs::Hashes::hash_of))]
pub(crate) fn hash_of(name: &[u8]) -> u64
    ensures { result ≡ hash_of name.now }
{
    let mut hasher = FoldHasher::default();
    hasher.write(name);
    hasher.finish()
}
