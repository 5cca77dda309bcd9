//! A region with one of its two trees in place of the first one, so that each reader of the first tree reads the
//! second.
#![tactic(auto)]

pub mod shown;

pub use shown::{Shown, SnapshotTree};
