//! The devices of the system: files on the disk, and standard streams. Their contents are not known to the
//! specification.
#![tactic(auto)]

mod disk_files;
mod exclusive_open;
mod held_blocks;
mod host;
pub mod laws;
mod names;
mod record;
mod save;
mod std_streams;
mod system;
mod system_faults;
mod temp_file;
mod window;

pub use disk_files::DiskFiles;
pub use std_streams::{StdSink, StdSource};
