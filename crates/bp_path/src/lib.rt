//! Paths, and the inodes that they find.
#![tactic(auto)]

pub mod laws;
mod names;
pub mod path;
pub mod steps;

pub use path::{BadPath, Path, parse};
pub use steps::{
    FoundEntry, WalkFault, walk, walk_by, walk_parent, walk_parent_by, walk_parent_with, walk_with,
};
