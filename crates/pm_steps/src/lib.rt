//! Write-back: the order in which the stores of a region's log reach the memory.
#![tactic(auto)]

pub mod backs;
pub mod laws;
pub mod machine;
pub mod word_set;

pub use backs::Backs;
pub use machine::{Machine, NotYet};
pub use word_set::WordSet;
