//! The arguments of a command line, as `clap` reads them.
#![tactic(auto)]

mod arguments;
pub mod laws;
mod subcommands;
mod usage;

pub use arguments::{Program, WordsFault, read_words};
pub use usage::mistake_line;
