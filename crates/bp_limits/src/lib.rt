//! The limits of the format, of calls, of scripts and of the programs: each figure in one place, under a name.
//!
//! Contracts cite them from `specs/Limits.antt` and `specs/CallLimits.antt`, all except `WORD_SIZE`, under the same
//! names in lower case.
#![tactic(auto)]

mod version;

pub use version::Version;

// ---- words and blocks

/// The size of a block, in bytes.
pub const BLOCK_SIZE: u64 = 4096;

/// The size of a word, in bytes.
pub const WORD_SIZE: u64 = 8;

/// The size of a block, in words, which is also the number of pointers of a node.
pub const BLOCK_WORDS: u64 = 512;

/// The minimum number of blocks of an image.
pub const MIN_BLOCKS: u32 = 8;

/// The maximum number of blocks of an image.
pub const MAX_BLOCKS: u32 = 67_108_864;

/// The maximum number of blocks of FILE, the image that the program `bpfs` reads into memory as a whole.
pub const MAX_FILE_BLOCKS: u32 = 65_536;

// ---- the superblock

/// The word of the superblock with the magic number of an image: [`Version::magic`].
pub const SUPER_MAGIC: u64 = 0;

/// The word of the superblock with the number of blocks.
pub const SUPER_BLOCKS: u64 = 1;

/// The word of the superblock with the root word of the inode file.
pub const SUPER_ROOT: u64 = 2;

/// The word of the superblock with the size of the inode file.
pub const SUPER_SIZE: u64 = 3;

/// The word of the superblock with the root word of the snapshot's inode file, from version 2 on.
pub const SUPER_SNAPSHOT_ROOT: u64 = 4;

/// The word of the superblock with the size of the snapshot's inode file, from version 2 on; 0 if there is no snapshot.
pub const SUPER_SNAPSHOT_SIZE: u64 = 5;

/// The word of the superblock that is reserved in version 3 for the root word of another inode file.
pub const SUPER_SPARE_ROOT: u64 = 6;

/// The word of the superblock that is reserved in version 3 for the size of that inode file.
pub const SUPER_SPARE_SIZE: u64 = 7;

// ---- inodes and directories

/// The size of an inode, in bytes.
pub const INODE_SIZE: u64 = 64;

/// The size of an inode, in words.
pub const INODE_WORDS: u64 = 8;

/// The word of an inode that is the root word of its tree.
pub const ROOT_FIELD: u64 = 1;

/// The word of an inode that is its size.
pub const SIZE_FIELD: u64 = 2;

/// The first word of an inode that is an attribute, in version 3.
pub const ATTRIBUTE_FIELD: u64 = 3;

/// The number of attributes of an inode, in version 3. Each is a word.
pub const ATTRIBUTES: u64 = 3;

/// The number of inodes in a block.
pub const BLOCK_INODES: u32 = 64;

/// The number of the root directory's inode.
pub const ROOT_INO: u32 = 1;

/// The first word of the root directory's inode in a new image: after inode 0 in block 1, which then is all of the
/// inode file.
pub const FIRST_INODE: u64 = 520;

/// The first word of a file's inode.
pub const FILE_KIND: u64 = 1;

/// The first word of a directory's inode.
pub const DIRECTORY_KIND: u64 = 2;

/// The size of a directory entry, in bytes.
pub const ENTRY_SIZE: u64 = 256;

/// The size of a directory entry, in words.
pub const ENTRY_WORDS: u64 = 32;

/// The number of directory entries in a block.
pub const BLOCK_ENTRIES: u64 = 16;

// ---- trees

/// The maximum height of a tree, in images of any version: [`Version::greatest_height`].
pub const MAX_HEIGHT: u32 = 5;

/// The maximum size of a file, a directory and the inode file in bytes, in images of any version: what a tree of the
/// maximum height covers. See [`Version::greatest_size`].
pub const MAX_SIZE: u64 = 144_115_188_075_855_872;

// ---- names and calls

/// The maximum length of a name, in bytes.
pub const MAX_NAME: usize = 240;

/// The maximum length of a path, in bytes.
pub const MAX_PATH: usize = 4096;

/// The maximum number of bytes that one call reads.
pub const MAX_READ: usize = 65_536;

/// The maximum number of bytes that one call writes, in images of any version: [`Version::greatest_write`].
pub const MAX_WRITE: usize = 1_048_576;

/// The maximum number of pieces of one batch.
pub const MAX_PIECES: usize = 16;

/// The maximum number of bytes of all pieces of a batch together.
pub const MAX_BATCH: u64 = 65_536;

/// The number of free log entries below which a call drains first: more than the events that any call adds.
pub const CALL_ROOM: usize = 262_144;

// ---- scripts and programs

/// The maximum length of a script line, in bytes without its newline.
pub const MAX_LINE: usize = 2_200_000;

/// The maximum length of a reply, in bytes with its newline.
pub const MAX_TEXT: usize = 140_000;

/// The maximum number of bytes of a script.
pub const MAX_INPUT: u64 = 1_073_741_824;

/// The number of events that the log of a program's region can hold.
pub const LOG_EVENTS: usize = 524_288;

/// The maximum number of positions of the mask that a script line spells out: eight for two digits of the longest
/// line.
pub const MAX_MASK: usize = 8_800_000;

/// The maximum number of operations of `play`.
pub const MAX_TURNS: u32 = 1_000_000;
