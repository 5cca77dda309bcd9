//! Renames: a name moves onto another one, within its directory, or to another directory.
#![tactic(auto)]

mod across;
pub mod laws;
mod moves;
mod needs;
mod onto;
mod past_end;
mod rename_cases;
mod touched_words;
mod within;

pub use moves::Move;
pub use rename_cases::rename;
