//! The walk over the pointers of one tree, which takes the tree's blocks out of a set.
//!
//! A mount starts with the set of all blocks except the first, and walks over each tree that it reaches. The blocks
//! that are left then are free. A pointer to a block that is not in the set any more is the second pointer to it.
#![tactic(auto)]

pub mod walk;

pub use walk::{CheckFault, take_tree};
