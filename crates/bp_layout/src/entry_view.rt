//! An entry that is read in place.

ghost use Rattle.std.specs.Prelude.{◌≡◌, ℕ, ◌+◌, ◌*◌, ◌<◌, ◌≤◌, length, slice_index, slice_range};
ghost use Rattle.bp_layout.specs.Directory.{is_named_in};
ghost use Rattle.bp_layout.specs.EntryWords.{HasWords, last_part, part_word};
ghost use Rattle.bp_layout.specs.Fields.{name_of};
ghost use Rattle.bp_layout.specs.Words.{Image};
ghost use Rattle.bp_limits.specs.Limits.{entry_words};
ghost use Rattle.bp_limits.specs.CallLimits.{max_name};

use crate::bytes::unpack;
use crate::entry::{INO_WORD, LENGTH_WORD, NAME_WORD};
use crate::name_words::{last_part, whole_word};
use bp_limits::{ENTRY_WORDS, MAX_NAME};
use pm_words::low_bytes;

/// An entry of a directory, as the words that store it.
#[derive(Clone, Copy)]
pub struct EntryView<'a> {
    words: &'a [u64],
    pub ghost whole: { length words.now ≡ entry_words },
}

impl<'a> EntryView<'a> {
    /// Makes a view of the entry that these words store.
    pub fn new(words: &'a [u64]) -> EntryView<'a>
        requires { length words.now ≡ entry_words }
        ensures { result.words.now ≡ words.now }
    {
        EntryView { words }
    }

    /// Makes a view of one of consecutive entries.
    pub fn in_row(row: &'a [u64], index: usize) -> EntryView<'a>
        requires { entry_words * index + entry_words ≤ length row.now }
        ensures { result.words.now ≡ slice_range row.now (entry_words * index) (entry_words * index + entry_words) }
    {
        let at = ENTRY_WORDS as usize * index;
        EntryView::new(&row[at..at + ENTRY_WORDS as usize])
    }

    /// Returns the number of the inode that the entry names, 0 if it is empty.
    pub fn ino(&self) -> u64
        ensures { result ≡ slice_index self.now.words.now 0 }
    {
        self.words[INO_WORD as usize]
    }

    /// Returns the length of the name in bytes.
    pub fn name_len(&self) -> u64
        ensures { result ≡ slice_index self.now.words.now 1 }
    {
        self.words[LENGTH_WORD as usize]
    }

    /// Reads the name into a buffer and returns it. The name of an empty entry is an earlier one.
    pub fn read_name<'b>(&self, into: &'b mut [u8; MAX_NAME]) -> &'b [u8]
        requires { slice_index self.now.words.now 1 ≤ max_name }
        ensures { result.now ≡ name_of self.now.words.now }
    {
        // Copying whole words is faster than copying exactly the bytes of the name.
        unpack(&self.words[NAME_WORD as usize..], into);
        &into[..self.name_len() as usize]
    }

    /// Returns the word with eight bytes of the name, or with the last ones and others after them.
    fn name_part(&self, part: usize) -> u64
        requires { part < 30 }
        ensures { result ≡ slice_index self.now.words.now (2 + part) }
    {
        self.words[NAME_WORD as usize + part]
    }

    /// Returns whether the entry names an inode by this name, whose last word is `last`. Where there are many names
    /// they often begin alike, so comparing the last words distinguishes most of them.
    pub fn is_named(&self, name: &[u8], last: u64) -> bool
        requires short { length name.now ≤ max_name }
        requires last { last ≡ part_word name.now (last_part name.now) }
        ensures { (image : Image) (root slot : ℕ) → HasWords image root slot self.now.words.now
            → result ≡ is_named_in image root name.now slot }
    {
        let whole = last_part(name);
        let end = self.name_part(whole);
        if low_bytes(end, (name.len() - 8 * whole) as u64) != last {
            return false;
        }
        if self.name_len() != name.len() as u64 {
            return false;
        }
        if self.ino() == 0 {
            return false;
        }
        for part in 0..whole {
            if self.name_part(part) != whole_word(name, part) {
                return false;
            }
        }
        true
    }
}
