//! The script that makes the tree of an image, written line by line to a sink.
//!
//! A tree may have paths that no call can spell. No line of such a tree is written, so that a walk is never deeper
//! than a path is long.
#![tactic(auto)]

mod attributes;
mod depth;
mod entries;
mod fault;
mod files;
mod firsts;
mod lines;
mod rows;
mod trees;
mod work;

pub use fault::Fault;
pub use trees::export;
