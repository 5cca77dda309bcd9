//! The checks of a mount.

ghost use Rattle.std.specs.Prelude.{◌≡◌};
ghost use Rattle.bp_layout.specs.Checks.{number_of};

/// A check of a mount. In an image that is no file system, it fails at a word that `docs/format.md` describes.
#[derive(Clone, Copy, Debug, PartialEq, Eq)]
pub enum Check {
    /// A root word has a height that no tree may have.
    Height,
    /// A root word or an interior pointer has a reserved bit set.
    PointerBits,
    /// A pointer names a block that is not in the image.
    Range,
    /// Two pointers name the same block.
    BlockTwice,
    /// A pointer of a directory or of the inode file is null.
    Hole,
    /// The inode file is empty, or its size is not a multiple of the block size.
    InodeFileSize,
    /// An entry names an inode that is not in the inode file.
    InodeNumber,
    /// An entry names the root directory, or a directory that another entry names too. A file may have several names.
    InodeTwice,
    /// An inode is neither a file nor a directory, or inode 1 is no directory.
    Kind,
    /// The size of a directory is not a multiple of the size of an entry.
    DirectorySize,
    /// A size is larger than a tree of its height can hold.
    Capacity,
    /// The name of an entry is not a valid name.
    NameForm,
    /// Two entries of a directory have the same name.
    NameTwice,
}

impl Check {
    /// Returns the number of the check in the list of `docs/format.md`.
    pub fn number(self) -> u8
        ensures { result ≡ number_of self }
    {
        match self {
            Check::Height => 1,
            Check::PointerBits => 2,
            Check::Range => 3,
            Check::BlockTwice => 4,
            Check::Hole => 5,
            Check::InodeFileSize => 6,
            Check::InodeNumber => 7,
            Check::InodeTwice => 8,
            Check::Kind => 9,
            Check::DirectorySize => 10,
            Check::Capacity => 11,
            Check::NameForm => 12,
            Check::NameTwice => 13,
        }
    }
}
