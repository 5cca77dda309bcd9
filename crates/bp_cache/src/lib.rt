//! What is remembered of directories: the slots of the names that were looked up last, and indexes of directories.
//!
//! All of it is in the memory of the program only. Without it, each name is searched for in its directory.
#![tactic(auto)]

mod cache;
mod collisions;
mod entry;
mod hash;
mod held;
mod index;
mod key;
mod name_at;
mod names;
mod recalled;
mod searches;
mod slots;

pub use cache::DirectoryCache;
pub use index::Index;
pub use name_at::NameAt;
pub use names::Names;
