//! The programs `format`, `run`, `check`, `play` and `export`.
#![tactic(auto)]

mod check;
mod export;
mod format;
pub mod image_file;
mod output;
mod play;
mod programs;
mod scan;
mod status;
mod stop;

pub use image_file::open;
pub use programs::run;
pub use status::Status;
pub use stop::Stop;
