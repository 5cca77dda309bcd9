//! Readers of an image: trees of blocks, inodes, and the entries of directories.
//!
//! A tree is a root word and a size in bytes. Below the root word are as many levels of pointer blocks as its height,
//! and below these the leaves, which are blocks of 512 content words. A null pointer represents zeros.
//!
//! A directory is a sequence of entries in the content of a tree, 32 words each: see `bp_layout::EntryView`.
#![tactic(auto)]

pub mod counts;
mod descent;
pub mod directory;
mod finder;
pub mod inodes;
mod leaf;
pub mod leaves;
pub mod magic;
mod name_stores;
pub mod nulls;
pub mod paths;
pub mod reads;
mod spot;
mod subtrees;
pub mod tree;

pub use counts::count_live;
pub use finder::{Finder, Hinted, Scan};
pub use leaves::next_leaf;
pub use magic::version;
pub use name_stores::put_name;
pub use nulls::first_null;
pub use paths::{Slots, address, word_path};
pub use reads::{leaf_words, read};
pub use spot::{Both, Found, Spot};
pub use subtrees::child;
pub use tree::{Tree, content_place, content_word, leaf_block, load_slot, node};
