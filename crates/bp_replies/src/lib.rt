//! Texts on their way to a sink: gathered, and passed on piece by piece.
#![tactic(auto)]

mod replies;
pub mod send;

pub use replies::{GATHERED, Replies};
