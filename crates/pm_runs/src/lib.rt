//! Logs as runs: stores to consecutive words, which a carrier of the log copies to its memory at once.
#![tactic(auto)]

pub mod laws;
mod pieces;
mod redo;

pub use pieces::{Run, run_at};
pub use redo::RedoRegion;
