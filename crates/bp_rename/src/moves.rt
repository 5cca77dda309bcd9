//! The source and the target of a rename.

/// The source and the target of a rename: the entry that moves, its new directory and name, and the slot of the entry
/// that has that name there.
#[derive(Clone, Copy)]
pub struct Move<'a> {
    /// The directory of the entry that moves.
    pub from_dir: u32,
    /// The slot of that entry.
    pub from_slot: u64,
    /// The directory to which it moves.
    pub to_dir: u32,
    /// The slot of the entry that has the new name there; `None` if no entry has it.
    pub to_slot: Option<u64>,
    /// The new name.
    pub name: &'a [u8],
}
