//! Worked samples of the layers below the calls: their results for a few small images, logs, devices and words, when
//! called from Rattle. `bp_examples` has the samples of the calls, a volume and the programs.
//!
//! The images are in one table, as their words. A row of `bp_rows` shows whatever a script, the arguments of a
//! command or a failing device can show; the rest is here. No crate has tests of its own, since a crate with tests is
//! proved again with them.
#![tactic(auto)]

#[cfg(test)]
mod append;
#[cfg(test)]
mod command;
#[cfg(test)]
mod cores;
#[cfg(test)]
mod free;
#[cfg(test)]
mod hints;
pub mod images;
#[cfg(test)]
mod index;
#[cfg(test)]
mod io;
#[cfg(test)]
mod layout;
#[cfg(test)]
mod path;
#[cfg(test)]
mod plain;
#[cfg(test)]
mod regions;
#[cfg(test)]
mod same;
#[cfg(test)]
mod scan;
#[cfg(test)]
mod spelling;
#[cfg(test)]
mod tree;
#[cfg(test)]
mod walk;
#[cfg(test)]
mod words;
