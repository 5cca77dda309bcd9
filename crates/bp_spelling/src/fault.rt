//! The faults of the names of a directory.

/// What is wrong with a name.
#[derive(Clone, Copy, Debug, PartialEq, Eq)]
pub enum NameFault {
    /// The name is not valid. The place is that of its length.
    Form {
        /// The number of the word of the region.
        place: u64,
    },
    /// Another entry has the same name. The place is that of the entry.
    Twice {
        /// The number of the word of the region.
        place: u64,
    },
}
