//! Words that an upgrade to version 3 clears.

/// The maximum number of inodes that one step of an upgrade clears. Each has three words, so a step stores at most
/// 196,608 words, which fit into the room that each call finds (`bp_limits::CALL_ROOM`).
pub const CLEARED_INODES: u32 = 65_536;
