//! The numbers and the words of refusals.

use crate::same::same;
use bp_plain::FsError;

/// Refusals, their numbers and their words.
const REFUSALS: [(FsError, u8, &str); 16] = [
    (FsError::BadPath, 1, "badpath"),
    (FsError::NotFound, 2, "notfound"),
    (FsError::NotDir, 3, "notdir"),
    (FsError::IsDir, 4, "isdir"),
    (FsError::Exists, 5, "exists"),
    (FsError::NotEmpty, 6, "notempty"),
    (FsError::IntoSelf, 7, "intoself"),
    (FsError::IsRoot, 8, "isroot"),
    (FsError::TooLong, 9, "toolong"),
    (FsError::TooBig, 10, "toobig"),
    (FsError::NoSpace { need: 3, free: 2 }, 11, "nospace"),
    (FsError::Memory, 12, "memory"),
    (FsError::NoSnap, 13, "nosnap"),
    (FsError::HasSnap, 14, "hassnap"),
    (FsError::OldVersion, 15, "oldversion"),
    (FsError::PastEnd, 16, "pastend"),
];

#[test]
fn refusals(rt: HostRuntime) {
    for (error, number, word) in &REFUSALS {
        same(&rt, error.number(), *number);
        same(&rt, error.word(), *word);
    }
}
