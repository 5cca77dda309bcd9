//! The entries of the log of several cores.

/// An action of a core on the memory that the cores share. `word` counts words of 8 bytes.
#[derive(Clone, Copy, Debug, PartialEq, Eq)]
pub enum Entry {
    /// A core reads a word.
    Load { core: u32, word: u64 },
    /// A core sets a word.
    Store { core: u32, word: u64, value: u64 },
    /// Each store of the core before the barrier reaches memory before any store of the core after it.
    Barrier { core: u32 },
}

/// The owner of a line's dirty words: one core, in one of its epochs. An epoch of a core is identified by the number
/// of the core's barriers before it.
#[derive(Clone, Copy, Debug, PartialEq, Eq)]
pub struct Owner {
    /// The number of the core.
    pub core: u32,
    /// The number of the epoch among those of the core.
    pub epoch: u32,
}
