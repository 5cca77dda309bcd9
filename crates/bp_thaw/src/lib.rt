//! Copy-on-write for the snapshot (*thaw*): copies the blocks of the snapshot on the ways to some words
//! into free blocks and sets the pointers to the copies. What a call then stores goes to no block of the snapshot.
#![tactic(auto)]

mod copies;
mod find;
mod links;
mod thaws;
mod walk;
mod ways;

pub use thaws::{thaw, thaw_need};
pub use walk::is_clear;
