//! The working memory of a walk.

ghost use Rattle.std.specs.Prelude.{◌≡◌, ℕ, [], IfOk, None, vec_len};
ghost use Rattle.bp_export.specs.Firsts.{first_text};
ghost use Rattle.bp_limits.specs.Limits.{block_size};
ghost use Rattle.bp_replies.specs.Gathering.{waiting};

use crate::firsts::Firsts;
use bp_limits::{BLOCK_SIZE, MAX_PATH};
use bp_replies::Replies;
use std::alloc::{AllocError, Global};

/// The working memory of a walk. None of it is on the stack, which grows with each name of a path.
#[derive(Drop)]
pub(crate) struct Work {
    /// The text of the current path.
    pub(crate) path: Vec<u8>,
    /// Memory for a stretch of a file: as many bytes as a block has.
    pub(crate) stretch: Vec<u8>,
    /// The lines that no sink has taken yet.
    pub(crate) replies: Replies,
    /// The first paths of files with several links.
    pub(crate) firsts: Firsts,
    /// Whether inodes have attributes in the version of the image. It is read once, and not again for each inode.
    pub(crate) attributes: bool,
    ghost room: { vec_len stretch ≡ block_size },
}

impl Work {
    /// Makes the working memory of a walk at the root, with no line written. `attributes` says whether inodes have
    /// attributes.
    ///
    /// # Errors
    ///
    /// * `AllocError`: allocation fails.
    pub(crate) fn new(alloc: Global, attributes: bool) -> Result<Work, AllocError>
        ensures path { IfOk result (λ work. work.path.items ≡ []) }
        ensures waits { IfOk result (λ work. waiting work.replies ≡ []) }
        ensures attributes { IfOk result (λ work. work.attributes ≡ attributes) }
        ensures firsts { IfOk result (λ work. (i : ℕ) → first_text work.firsts i ≡ None) }
    {
        Ok(Work {
            path: Vec::with_capacity(alloc, MAX_PATH)?,
            stretch: vec![in alloc; 0; BLOCK_SIZE as usize]?,
            replies: Replies::new(alloc)?,
            firsts: Firsts::new(alloc),
            attributes,
        })
    }
}
