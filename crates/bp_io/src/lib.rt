//! The environment of the file system: sources of bytes (`Source`), sinks of bytes (`Sink`), and files of blocks of
//! 4,096 bytes (`Files`), each with implementations in memory.
#![tactic(auto)]

mod access;
mod fair_files;
mod faults;
mod files;
mod image;
mod mem_files;
mod memory_streams;
mod streams;

pub use access::Access;
pub use fair_files::FairFiles;
pub use faults::{Failed, raise};
pub use files::{BLOCK, Files};
pub use mem_files::MemFiles;
pub use memory_streams::{FairSource, MemSink, MemSource, NullSink};
pub use streams::{Sink, Source};
