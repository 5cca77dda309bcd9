//! Names and their slots.

/// A name in a directory, and the slot of its entry there.
#[derive(Clone, Copy)]
pub struct NameAt<'a> {
    /// The number of the directory's inode.
    pub dir: u32,
    /// The name.
    pub name: &'a [u8],
    /// The slot.
    pub slot: u64,
}
