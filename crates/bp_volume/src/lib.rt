//! A volume: a file system over a region of persistent memory.
#![tactic(auto)]

mod attributes;
mod batch;
mod create;
pub mod laws;
mod link;
mod lookup;
mod memory;
mod queries;
mod refusals;
mod remove;
mod rename;
mod replies;
mod rescan;
mod resize;
mod snapshot;
mod stored;
mod upgrade;
mod volume;
mod write;

pub use bp_fs::Space;
pub use bp_layout::Totals;
pub use bp_mount::MountFault;
pub use volume::Volume;
