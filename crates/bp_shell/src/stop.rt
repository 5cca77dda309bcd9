//! Why a program ends before it serves or reports on its file.

use bp_script::Notice;

/// The reason for which a program ends before it serves or reports on its file.
#[derive(Clone, Copy, Debug, PartialEq, Eq)]
pub enum Stop {
    /// The file does not exist.
    Missing,
    /// The files failed.
    Outside,
    /// The file is refused, and this line says why.
    Refused(Notice),
    /// Allocation failed.
    Memory,
}
