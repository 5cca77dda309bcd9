//! The names of a directory: the check that each is a valid name, and that no two are equal.
#![tactic(auto)]

mod check;
mod doubles;
mod entry;
mod fault;
mod form;
mod gather;
mod hash;
mod name_words;
mod rows;
mod table;

pub use check::check_names;
pub use entry::Spelled;
pub use fault::NameFault;
pub use rows::named_in_row;
pub use table::make_room;
