//! What a script line asks of a crash.

/// What a script line asks a crash to keep.
#[derive(Clone, Copy, Debug, PartialEq, Eq)]
pub enum Cut<'a> {
    /// Each store of the log.
    All,
    /// No store.
    Nothing,
    /// The stores that were written back at a crash point.
    At {
        /// The number of events executed.
        moment: u64,
        /// The epoch that was being written back. All stores of earlier epochs are kept.
        epoch: u64,
        /// Which of the epoch's stores were written back, one bit each, the lowest bit of the first byte first.
        mask: &'a [u8],
    },
}
