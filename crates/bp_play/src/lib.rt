//! Plays: scripts of any length, made from one number.
#![tactic(auto)]

mod operations;
mod paths;
mod play;
mod sort;
mod summary;

pub use play::{PlayBuffers, play_on};
pub use sort::Sort;
pub use summary::Summary;
