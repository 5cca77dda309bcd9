//! The versions of the format, and the limits that differ between them.

ghost use Rattle.std.specs.Prelude.{◌≡◌, ◌≤◌};
ghost use Rattle.bp_limits.specs.Numbers.{version_numbered};
ghost use Rattle.bp_limits.specs.Limits.{greatest_height, magic, max_height, version_at};
ghost use Rattle.bp_limits.specs.CallLimits.{greatest_size, greatest_write, max_size, max_write};

use crate::{MAX_HEIGHT, MAX_SIZE, MAX_WRITE};

/// A version of the format, which word 0 of an image identifies.
#[derive(Clone, Copy, Debug, PartialEq, Eq)]
pub enum Version {
    /// The first version.
    One,
    /// The version with higher trees, longer writes and a snapshot.
    Two,
    /// The version with attributes, which are words of an inode that are the caller's own.
    Three,
}

impl Version {
    /// Returns the version with a number, which is 1, 2 or 3.
    pub fn numbered(number: u8) -> Version
        requires least { 1 ≤ number }
        requires most { number ≤ 3 }
        ensures { result ≡ version_numbered number }
    {
        if number == 1 {
            Version::One
        } else if number == 2 {
            Version::Two
        } else {
            Version::Three
        }
    }

    /// Returns the version of an image with this word 0: the first version if it is the magic number of none.
    pub fn at(word: u64) -> Version
        ensures { result ≡ version_at word }
    {
        if word == Version::Two.magic() {
            Version::Two
        } else if word == Version::Three.magic() {
            Version::Three
        } else {
            Version::One
        }
    }

    /// Returns the magic number, which is word 0 of an image: the bytes `BPFSRS01`, `BPFSRS02` or `BPFSRS3A`, the lowest
    /// first.
    pub fn magic(self) -> u64
        ensures { result ≡ magic self }
    {
        match self {
            Version::One => 0x3130_5352_5346_5042,
            Version::Two => 0x3230_5352_5346_5042,
            Version::Three => 0x4133_5352_5346_5042,
        }
    }

    /// Returns the maximum height of a tree.
    pub fn greatest_height(self) -> u32
        ensures height { result ≡ greatest_height self }
        ensures most { result ≤ max_height }
    {
        match self {
            Version::One => 3,
            Version::Two | Version::Three => MAX_HEIGHT,
        }
    }

    /// Returns the maximum size of a file, a directory and the inode file, in bytes: what a tree of the maximum height
    /// covers.
    pub fn greatest_size(self) -> u64
        ensures size { result ≡ greatest_size self }
        ensures most { result ≤ max_size }
    {
        match self {
            Version::One => 549_755_813_888,
            Version::Two | Version::Three => MAX_SIZE,
        }
    }

    /// Returns the maximum number of bytes that one call writes.
    pub fn greatest_write(self) -> usize
        ensures write { result ≡ greatest_write self }
        ensures most { result ≤ max_write }
    {
        match self {
            Version::One => 65_536,
            Version::Two | Version::Three => MAX_WRITE,
        }
    }
}
