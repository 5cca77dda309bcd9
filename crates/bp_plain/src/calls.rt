//! The calls on the files and directories of a volume.

/// A part of a text: `len` bytes from position `at` on.
#[derive(Clone, Copy, Debug, Default, PartialEq, Eq)]
pub struct Span {
    /// Position of the first byte in the text.
    pub at: u32,
    /// Number of bytes.
    pub len: u32,
}

/// One write of a batch: bytes for the file at a path, from an offset on. The path and the bytes are parts of one text.
#[derive(Clone, Copy, Debug, Default, PartialEq, Eq)]
pub struct Piece {
    /// Path of the file.
    pub path: Span,
    /// Offset of the first byte in the file, in bytes.
    pub offset: u64,
    /// Bytes to write.
    pub bytes: Span,
}

/// A call on files and directories. Each path is given as the bytes of a path text, already decoded.
#[derive(Clone, Copy, Debug, PartialEq, Eq)]
pub enum Call<'a> {
    /// Creates an empty file at a path.
    Create(&'a [u8]),
    /// Creates an empty directory at a path.
    Mkdir(&'a [u8]),
    /// Removes this path of a file, and the file itself with its last path.
    Unlink(&'a [u8]),
    /// Removes the empty directory at a path.
    Rmdir(&'a [u8]),
    /// Lists the names in the directory at a path.
    List(&'a [u8]),
    /// Returns the size of the file, or the number of names in the directory, at a path.
    Stat(&'a [u8]),
    /// Reads at most `len` bytes of the file at a path, from byte `offset` on.
    Read {
        /// Path of the file.
        path: &'a [u8],
        /// Offset of the first byte in the file, in bytes.
        offset: u64,
        /// Greatest number of bytes to return.
        len: usize,
    },
    /// Writes bytes to the file at a path, from byte `offset` on. Bytes between its old end and `offset` become 0.
    Write {
        /// Path of the file.
        path: &'a [u8],
        /// Offset of the first byte in the file, in bytes.
        offset: u64,
        /// Bytes to write. If there are none, the file does not change.
        bytes: &'a [u8],
    },
    /// Sets the size of the file at a path. Bytes past its old end become 0.
    Truncate {
        /// Path of the file.
        path: &'a [u8],
        /// New size in bytes.
        size: u64,
    },
    /// Moves the file or the directory at a path, with everything below it, to another path.
    Rename {
        /// Present path.
        from: &'a [u8],
        /// New path. A file or an empty directory at this path is replaced.
        to: &'a [u8],
    },
    /// Gives the file at a path another path (a hard link).
    Link {
        /// An existing path of the file.
        from: &'a [u8],
        /// Additional path.
        to: &'a [u8],
    },
    /// Returns the number of paths (links) of the file at a path.
    Links(&'a [u8]),
    /// Changes the format from version 1 to version 2. Later versions stay.
    Upgrade,
    /// Changes the format from version 1 or 2 to version 3, unless there is a snapshot. Version 3 stays.
    UpgradeToThree,
    /// Takes a snapshot: keeps the files and directories as they are now, for later calls to read.
    Snap,
    /// Deletes the snapshot.
    Unsnap,
    /// Lists the names in a directory of the snapshot.
    SnapList(&'a [u8]),
    /// Returns the size of a file, or the number of names in a directory, of the snapshot.
    SnapStat(&'a [u8]),
    /// Reads bytes of a file of the snapshot.
    SnapRead {
        /// Path of the file.
        path: &'a [u8],
        /// Offset of the first byte in the file, in bytes.
        offset: u64,
        /// Greatest number of bytes to return.
        len: usize,
    },
    /// Returns an attribute of the file or directory at a path.
    Attribute {
        /// Path of the file or directory.
        path: &'a [u8],
        /// Number of the attribute, from 0 to 2.
        number: u64,
    },
    /// Sets an attribute of the file or directory at a path. The file system gives it no meaning.
    SetAttribute {
        /// Path of the file or directory.
        path: &'a [u8],
        /// Number of the attribute, from 0 to 2.
        number: u64,
        /// New value.
        value: u64,
    },
    /// Writes bytes to one or several files, all at once: the pieces are written in their order.
    Batch {
        /// Text that contains the paths and bytes of the pieces.
        text: &'a [u8],
        /// The pieces, 1 to 16 of them.
        pieces: &'a [Piece],
    },
}
