//! The scan of an image at mount. It determines whether the image is a file system, what is wrong if it is not, which
//! blocks and inodes are free, and the number of links of each inode.
//!
//! A scan starts with the set of all blocks except the first and of all inodes from 2 on. It takes the blocks of each
//! tree that it enters out of the first set, and each inode to which an entry refers out of the second. It keeps the
//! directories that are still to be read in a third set. With each entry it counts one more link of the inode to which
//! the entry refers.
//!
//! An image may have a second tree. The same functions scan it, in a region that shows it as the first tree. They do
//! so before they scan the first tree, so that one set of each kind suffices for both.
#![tactic(auto)]

mod directories;
mod fault;
mod first_tree;
mod inode_count;
pub mod laws;
mod length;
mod name_check;
mod pending;
mod tree_walk;
mod trees;
mod whole;
mod work;

pub use bp_layout::Check;
pub use fault::MountFault;
pub use length::image_length;
pub use pending::Pending;
pub use whole::{fill_others, has_second, scan_known, scan_whole};
