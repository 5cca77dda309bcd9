//! The outcomes of a line.

/// The outcome of a line.
#[derive(Clone, Copy, Debug, PartialEq, Eq)]
pub enum Outcome {
    /// A call was answered; the answer is in the reply of the buffers.
    Answered,
    /// All is written back.
    Synced,
    /// Blocks were counted.
    Counted {
        /// The number of free blocks.
        free: u32,
        /// The number of live blocks.
        live: u32,
    },
    /// The region crashed, and continues with the words that survived.
    Kept {
        /// The number of calls that survived.
        c: usize,
        /// The number of calls of the log.
        n: usize,
    },
    /// The log was counted.
    Logged {
        /// The number of its events.
        events: usize,
        /// The number of its barriers.
        barriers: usize,
        /// The number of its calls.
        calls: usize,
    },
    /// The log does not allow such a crash, and nothing was done.
    BadChoice,
    /// Allocation of the caches that the line asks for failed, and nothing was done.
    NoMemory,
    /// The line is not in the grammar.
    BadSyntax,
    /// The line is too long.
    TooLong,
}
