//! Where a name is, or may be put.

/// Result of a scan of a directory for a name.
#[derive(Clone, Copy, Debug, PartialEq, Eq)]
pub enum Spot {
    /// First slot whose entry names an inode by this name.
    Named(u64),
    /// No entry has the name. First slot whose entry is empty, `None` if there is none.
    Free(Option<u64>),
}

/// An entry that has a name.
#[derive(Clone, Copy, Debug, PartialEq, Eq)]
pub struct Found {
    /// Slot of the entry.
    pub slot: u64,
    /// Number of the inode that it names.
    pub ino: u64,
}

/// Result of a scan of a directory for two names.
#[derive(Clone, Copy, Debug, PartialEq, Eq)]
pub struct Both {
    /// Entry that has the first name.
    pub found: Option<Found>,
    /// Where the other name is, or may be put.
    pub spot: Spot,
}
