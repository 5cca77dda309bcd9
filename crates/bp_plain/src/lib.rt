//! The abstract file tree that an image represents, and the calls on it with their answers.
#![tactic(auto)]

mod calls;
mod contents;
mod errors;
pub mod laws;
mod paths;
mod replies;
mod trees;

pub use calls::{Call, Piece, Span};
pub use errors::FsError;
pub use replies::{Answer, Reply};
pub use trees::Plain;
