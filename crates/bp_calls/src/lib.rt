//! The calls of a file system on inodes: the part of a call after its path is resolved.
#![tactic(auto)]

mod attributes;
mod batches;
pub mod clear;
mod commit;
mod creation;
mod growth;
mod hard_links;
pub mod laws;
mod listing;
mod new_entry;
mod queries;
mod release;
mod removal;
mod resize;
mod targets;
mod thaw;
mod writes;

pub use attributes::{attribute, set_attribute};
pub use batches::{Patch, batch};
pub use commit::touched_by;
pub use creation::{create, create_in};
pub use hard_links::link_in;
pub use listing::list;
pub use new_entry::append_entry;
pub use queries::{links, read, stat};
pub use release::free_tree;
pub use removal::remove;
pub use resize::truncate;
pub use targets::{Targets, entry_path, push_end};
pub use thaw::thaw_before;
pub use writes::write;
