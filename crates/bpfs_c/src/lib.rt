//! The volume for programs in C; `bpfs.h` describes each call. A handle holds a volume on the heap, or none. The
//! caller carries the events of its log to the storage of its words.
#![tactic(auto)]

pub mod attributes;
pub mod batch;
pub mod calls;
pub mod codes;
pub mod format_events;
pub mod handle;
pub mod info;
pub mod listing;
pub mod log;
mod loose;
pub mod mount;
pub mod mount_at;
pub mod mounted;
pub mod queries;
pub mod runs;
pub mod snapshot;
pub mod space;
pub mod tag;
pub mod upgrade;
