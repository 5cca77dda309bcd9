//! The abstract file tree as a file system: its calls are the definition's own. Slow, and without a volume.
#![tactic(auto)]

mod calls;
mod reference;

pub use reference::Reference;
