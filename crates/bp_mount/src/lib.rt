//! What a mount and a format of a region need below the volume: the stores of a format, the memory for a scan, the
//! faults of a mount, and the trait [`Mount`] of the file systems that can be mounted.
#![tactic(auto)]

mod faults;
mod format_stores;
mod mount;
mod sets;

pub use bp_scan::MountFault;
pub use faults::stored_fault;
pub use format_stores::{lay_first_blocks, lay_out};
pub use mount::Mount;
pub use sets::Sets;
