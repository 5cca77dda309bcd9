//! The first path of each file with several links.

ghost use Rattle.std.specs.Prelude.{◌≡◌, ◌==◌, ℕ, MatchOption, None, OnOk, Some, if◌then◌else◌};
ghost use Rattle.bp_export.specs.Firsts.{first_text};

use std::alloc::{AllocError, Global};
use std::collections::BTreeMap;

/// The texts of paths, each under the number of the inode that the path finds.
#[derive(Drop)]
pub(crate) struct Firsts {
    texts: BTreeMap<u32, Vec<u8>>,
}

impl Firsts {
    /// Makes an empty map.
    pub(crate) fn new(alloc: Global) -> Firsts
        ensures { (i : ℕ) → first_text result i ≡ None }
    {
        Firsts {
            texts: BTreeMap::new(alloc),
        }
    }

    /// Returns the text for the number of an inode.
    pub(crate) fn get(&self, ino: u32) -> Option<&[u8]>
        ensures { MatchOption result (first_text self.now ino ≡ None) (λ text. first_text self.now ino ≡ Some text.now) }
    {
        match self.texts.get(&ino) {
            Some(text) => Some(text.as_slice()),
            None => None,
        }
    }

    /// Stores a text for the number of an inode.
    ///
    /// # Errors
    ///
    /// * `AllocError`: allocation fails.
    pub(crate) fn add(&mut self, alloc: Global, ino: u32, text: &[u8]) -> Result<(), AllocError>
        ensures { OnOk result ((j : ℕ) → first_text self.new j ≡ (if j == ino then Some text.now else first_text self.old j)) }
    {
        let copy = Vec::from_slice(alloc, text)?;
        match self.texts.insert(ino, copy) {
            Ok(_) => Ok(()),
            Err(_) => Err(AllocError),
        }
    }
}
