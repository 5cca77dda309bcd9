//! The calls of a file system as traits, below those who use them and beside those who make them.
//!
//! - [`FileSystem`] is what a session of script lines is served over. It states each call by the behaviour that its
//!   maker defines.
//! - [`StoredFileSystem`] states each call by the words of the region in which the file system is stored, and so by
//!   what a mount of them finds after a crash. Each is a `FileSystem`.
#![tactic(auto)]

mod file_system;
mod room;
mod space;
mod stored;

pub use file_system::FileSystem;
pub use room::needs_drain;
pub use space::Space;
pub use stored::StoredFileSystem;
