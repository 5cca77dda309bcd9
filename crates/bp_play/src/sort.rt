//! The kinds of operations.

ghost use Rattle.std.specs.Prelude.{◌≡◌, ◌%◌};
ghost use Rattle.bp_play.specs.Turns.{sort_of};

/// The kind of an operation of a play.
#[derive(Clone, Copy, Debug, PartialEq, Eq)]
pub enum Sort {
    /// Creates a file.
    Create,
    /// Creates a directory.
    Mkdir,
    /// Writes one byte repeatedly.
    Write,
    /// Changes the size of a file.
    Truncate,
    /// Removes a file.
    Unlink,
    /// Moves a file.
    RenameFile,
    /// Moves a directory.
    RenameDir,
    /// Removes a directory.
    Rmdir,
    /// Reads bytes of a file.
    Read,
    /// Crashes, as a storm chooses.
    Storm,
}

/// Returns the kind that a drawn number selects.
pub(crate) fn sort_by(number: u32) -> Sort
    ensures { result ≡ sort_of (number % 16) }
{
    match number % 16 {
        0..=2 => Sort::Create,
        3 => Sort::Mkdir,
        4..=8 => Sort::Write,
        9 => Sort::Truncate,
        10 => Sort::Unlink,
        11 => Sort::RenameFile,
        12 => Sort::RenameDir,
        13 => Sort::Rmdir,
        14 => Sort::Read,
        _ => Sort::Storm,
    }
}
