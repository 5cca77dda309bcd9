//! The fields of an image: root words, pointers, the superblock and inodes.

ghost use Rattle.std.specs.Prelude.{◌*◌, ◌+◌, ◌<◌, ◌^◌, ◌↔◌, ◌≡◌, ◌≤◌, IfOk, IsOk, slice_index};
ghost use Rattle.bp_layout.specs.Fields.{IsPointerWord, IsRootWord, words_of_inode, kind_word, pointer_word, root_word, words_of_super};
ghost use Rattle.bp_limits.specs.Limits.{max_height};
ghost use Rattle.bp_layout.specs.Words.{block_of, height_of};

use arrayvec::ArrayVec;
use bp_limits::{BLOCK_SIZE, DIRECTORY_KIND, FILE_KIND, MAX_NAME};

/// Kind of an inode.
#[derive(Clone, Copy, Debug, PartialEq, Eq)]
pub enum Kind {
    /// A sequence of bytes.
    File,
    /// A sequence of entries, each of which names an inode or is empty.
    Dir,
}

/// What `stat` returns of an inode.
#[derive(Clone, Copy, Debug, PartialEq, Eq)]
pub enum Stat {
    /// A file, and its size in bytes.
    File { size: u64 },
    /// A directory, and how many entries of it name an inode.
    Dir { count: u64 },
}

/// Bytes of a name, at most 240. In an entry that names an inode there are 1 to 240.
pub type Name = ArrayVec<u8, MAX_NAME>;

/// Error for a word that is no valid pointer: a reserved bit is set, or the height is above the greatest one.
#[derive(Clone, Copy, Debug, PartialEq, Eq)]
pub struct BadPointer;

/// Root word of a tree: its top block and its height.
#[derive(Clone, Copy, Debug, PartialEq, Eq)]
pub struct RootWord {
    /// Number of levels of pointer blocks above the leaves.
    pub height: u32,
    /// Number of the top block, 0 if there is none.
    pub block: u64,
}

impl RootWord {
    /// Reads the fields of a root word: the height from bits 0 to 2, the block from bits 12 to 63. `top` is the
    /// greatest height that a tree may have.
    ///
    /// # Errors
    ///
    /// - `BadPointer`: the height is above `top`, or one of bits 3 to 11 is set; in no other case.
    pub fn read(word: u64, top: u32) -> Result<RootWord, BadPointer>
        ensures form { IsOk result ↔ IsRootWord top word }
        ensures height { IfOk result (λ root. root.height ≡ height_of word) }
        ensures block { IfOk result (λ root. root.block ≡ block_of word) }
    {
        let height = (word % 8) as u32;
        if height > top || word / 8 % 512 != 0 {
            return Err(BadPointer);
        }
        Ok(RootWord {
            height,
            block: pm_words::block_of(word),
        })
    }

    /// Returns the word with these fields.
    pub fn word(&self) -> u64
        requires height { self.now.height ≤ max_height }
        requires block { self.now.block < 2 ^ 52 }
        ensures { result ≡ root_word self.now.height self.now.block }
    {
        BLOCK_SIZE * self.block + self.height as u64
    }
}

/// Returns the block to which a pointer below a root word leads (bits 12 to 63), 0 for a null pointer.
///
/// # Errors
///
/// - `BadPointer`: one of bits 0 to 11 is set; in no other case.
pub fn pointer(word: u64) -> Result<u64, BadPointer>
    ensures form { IsOk result ↔ IsPointerWord word }
    ensures block { IfOk result (λ block. block ≡ block_of word) }
{
    if word % BLOCK_SIZE != 0 {
        return Err(BadPointer);
    }
    Ok(pm_words::block_of(word))
}

/// Returns the pointer to a block.
pub fn pointer_word(block: u64) -> u64
    requires { block < 2 ^ 52 }
    ensures { result ≡ pointer_word block }
{
    BLOCK_SIZE * block
}

/// Words of the superblock that have a meaning.
#[derive(Clone, Copy, Debug, PartialEq, Eq)]
pub struct Super {
    /// Magic number: that of a version if the image is formatted.
    pub magic: u64,
    /// Number of blocks of the image.
    pub blocks: u64,
    /// Root word of the inode file.
    pub root: u64,
    /// Size of the inode file in bytes.
    pub size: u64,
}

impl Super {
    /// Reads the fields in words 0 to 3 of an image.
    pub fn read(words: &[u64; 4]) -> Super
        ensures magic { result.magic ≡ slice_index words.now 0 }
        ensures blocks { result.blocks ≡ slice_index words.now 1 }
        ensures root { result.root ≡ slice_index words.now 2 }
        ensures size { result.size ≡ slice_index words.now 3 }
    {
        Super {
            magic: words[0],
            blocks: words[1],
            root: words[2],
            size: words[3],
        }
    }

    /// Returns the words with these fields.
    pub fn words(&self) -> [u64; 4]
        ensures { result ≡ words_of_super self.now }
    {
        [self.magic, self.blocks, self.root, self.size]
    }
}

/// Words of an inode that have a meaning.
#[derive(Clone, Copy, Debug, PartialEq, Eq)]
pub struct Inode {
    /// Kind of the inode.
    pub kind: Kind,
    /// Root word of its tree.
    pub root: u64,
    /// Size in bytes.
    pub size: u64,
}

impl Inode {
    /// Reads the fields in words 0 to 2 of an inode. Word 0 must be 1 (a file) or 2 (a directory).
    pub fn read(words: &[u64; 3]) -> Inode
        requires least { 1 ≤ slice_index words.now 0 }
        requires most { slice_index words.now 0 ≤ 2 }
        ensures kind { kind_word result.kind ≡ slice_index words.now 0 }
        ensures root { result.root ≡ slice_index words.now 1 }
        ensures size { result.size ≡ slice_index words.now 2 }
    {
        let kind = match words[0] {
            FILE_KIND => Kind::File,
            _ => Kind::Dir,
        };
        Inode {
            kind,
            root: words[1],
            size: words[2],
        }
    }

    /// Returns the words with these fields.
    pub fn words(&self) -> [u64; 3]
        ensures { result ≡ words_of_inode self.now }
    {
        [self.kind.word(), self.root, self.size]
    }
}

impl Kind {
    /// Returns the first word of an inode of this kind.
    pub fn word(self) -> u64
        ensures { result ≡ kind_word self }
    {
        match self {
            Kind::File => FILE_KIND,
            Kind::Dir => DIRECTORY_KIND,
        }
    }
}
