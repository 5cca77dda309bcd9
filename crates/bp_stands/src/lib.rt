//! The abstract tree that an image represents after a change: a new or removed name, a file's new bytes, a moved name.
//! Definitions and lemmas only.
#![tactic(auto)]
