//! The refusals of calls.

ghost use Rattle.bp_plain.specs.Refusals.{refusal_number, refusal_word};
ghost use Rattle.bp_plain.specs.Seen.{refusal_of};
ghost use Rattle.std.specs.Prelude.{◌≡◌};

use thiserror::Error;

/// Reason why a call was refused. A refused call changes nothing.
#[derive(Clone, Copy, Debug, PartialEq, Eq, Error)]
pub enum FsError {
    /// The text of a path is not a valid path.
    #[error("bad path")]
    BadPath,
    /// A name of the path does not exist.
    #[error("not found")]
    NotFound,
    /// A file is where a directory is needed.
    #[error("not a directory")]
    NotDir,
    /// A directory is where a file is needed.
    #[error("is a directory")]
    IsDir,
    /// The path exists already.
    #[error("exists")]
    Exists,
    /// The directory is not empty.
    #[error("not empty")]
    NotEmpty,
    /// A directory would move below itself.
    #[error("into itself")]
    IntoSelf,
    /// The root directory can be neither removed nor moved.
    #[error("is the root directory")]
    IsRoot,
    /// There are more bytes than one call may write.
    #[error("too long")]
    TooLong,
    /// The file would grow past the greatest size.
    #[error("too big")]
    TooBig,
    /// Fewer blocks are free than the call needs.
    #[error("no space: {need} blocks are needed, {free} are free")]
    NoSpace {
        /// Number of blocks that the call needs.
        need: u32,
        /// Number of free blocks.
        free: u32,
    },
    /// The program is out of memory for this call.
    #[error("out of memory")]
    Memory,
    /// There is no snapshot.
    #[error("no snapshot")]
    NoSnap,
    /// There is a snapshot. It must be deleted before another is taken, and before an upgrade to version 3.
    #[error("a snapshot is there")]
    HasSnap,
    /// The version of the format has no snapshots (version 1), or no attributes (versions 1 and 2).
    #[error("old version")]
    OldVersion,
    /// Bytes of a batch end past the end of their file.
    #[error("past the end")]
    PastEnd,
}

impl FsError {
    /// Returns the number by which replies name the refusal.
    pub fn number(&self) -> u8
        ensures { result ≡ refusal_number (refusal_of self.now) }
    {
        match self {
            FsError::BadPath => 1,
            FsError::NotFound => 2,
            FsError::NotDir => 3,
            FsError::IsDir => 4,
            FsError::Exists => 5,
            FsError::NotEmpty => 6,
            FsError::IntoSelf => 7,
            FsError::IsRoot => 8,
            FsError::TooLong => 9,
            FsError::TooBig => 10,
            FsError::NoSpace { .. } => 11,
            FsError::Memory => 12,
            FsError::NoSnap => 13,
            FsError::HasSnap => 14,
            FsError::OldVersion => 15,
            FsError::PastEnd => 16,
        }
    }

    /// Returns the word by which replies name the refusal.
    pub fn word(&self) -> &'static str
        ensures { result.now ≡ refusal_word (refusal_of self.now) }
    {
        match self {
            FsError::BadPath => "badpath",
            FsError::NotFound => "notfound",
            FsError::NotDir => "notdir",
            FsError::IsDir => "isdir",
            FsError::Exists => "exists",
            FsError::NotEmpty => "notempty",
            FsError::IntoSelf => "intoself",
            FsError::IsRoot => "isroot",
            FsError::TooLong => "toolong",
            FsError::TooBig => "toobig",
            FsError::NoSpace { .. } => "nospace",
            FsError::Memory => "memory",
            FsError::NoSnap => "nosnap",
            FsError::HasSnap => "hassnap",
            FsError::OldVersion => "oldversion",
            FsError::PastEnd => "pastend",
        }
    }
}
