//! The meaning of the words of an image, and the types of its fields.
#![tactic(auto)]

mod bytes;
mod check;
mod clearing;
mod entry;
mod entry_view;
mod fields;
mod hints;
pub mod image_laws;
pub mod laws;
mod listing;
mod name_words;
mod totals;

pub use bytes::unpack;
pub use check::Check;
pub use clearing::CLEARED_INODES;
pub use entry::{Entry, INO_WORD, LENGTH_WORD, NAME_WORD, NAME_WORDS};
pub use entry_view::EntryView;
pub use fields::{BadPointer, Inode, Kind, Name, RootWord, Stat, Super, pointer, pointer_word};
pub use hints::{Hints, NoHints};
pub use listing::Listing;
pub use name_words::{last_word, name_word};
pub use totals::Totals;
