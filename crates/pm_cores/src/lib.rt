//! The caches of several cores over one memory, which keep the order of each core's epochs.
#![tactic(auto)]

pub mod cores;
pub mod entry;
pub mod laws;
mod search;

pub use cores::{Cores, NotYet};
pub use entry::{Entry, Owner};
