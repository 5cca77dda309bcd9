//! The lines of scripts and the texts of replies.
#![tactic(auto)]

mod batches;
mod calls;
mod decoded;
mod digits;
mod fields;
pub mod laws;
mod lines;
mod notices;
mod numbers;
mod pieces;
mod replies;
mod verbs;

pub use calls::say_call;
pub use decoded::Decoded;
pub use lines::{Line, Syntax};
pub use notices::{MAX_NOTICE, Notice, announce};
pub use replies::{Said, say};
