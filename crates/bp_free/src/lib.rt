//! Sets of free numbers: the blocks and the inodes that nothing uses.
//!
//! A set has the free numbers below its bound. It is stored as one bit for each number, and one more bit for each word
//! of 64 numbers that is not empty, so that the least number is found without a pass over all words.
#![tactic(auto)]

mod bits;
mod counts;
mod hints;
pub mod laws;
mod numbers;
mod padded;
mod parts;
mod searching;
mod steps;

pub use counts::Counts;
pub use numbers::{BlockNumbers, Blocks, InodeNumbers, Inodes, Kind, Numbers, ShortKind};
pub use parts::{NoSpace, Parts};
pub use steps::Steps;
