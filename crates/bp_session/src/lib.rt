//! Sessions: the lines of a script, served over a file system, each with its reply to a sink.
#![tactic(auto)]

mod actions;
pub mod blocks;
mod broken;
mod caches;
pub mod laws;
mod outcome;
mod replies;
pub mod save;
mod server;
mod work;

pub use actions::act;
pub use broken::Broken;
pub use outcome::Outcome;
pub use server::{serve, serve_gathered, serve_line};
pub use work::{LineBuffers, Work};
