//! The count of the inodes that a scan enters.

ghost use Rattle.std.specs.Prelude.{◌≡◌, ◌≤◌};
ghost use Rattle.bp_scan.specs.Counted.{CountsOne, IsCountable, no_totals};

use bp_layout::Totals;
use bp_limits::DIRECTORY_KIND;

/// Returns the totals when nothing was counted yet.
pub(crate) fn no_totals() -> Totals
    ensures { result ≡ no_totals }
{
    Totals {
        files: 0,
        dirs: 0,
        bytes: 0,
        live: 0,
    }
}

/// Returns the totals with one more inode of a kind and a size.
pub(crate) fn count_inode(totals: Totals, kind: u64, size: u64) -> Totals
    requires least { 1 ≤ kind }
    requires most { kind ≤ 2 }
    requires few { IsCountable totals }
    ensures { CountsOne kind size totals result }
{
    if kind == DIRECTORY_KIND {
        return Totals {
            dirs: totals.dirs + 1,
            ..totals
        };
    }
    Totals {
        files: totals.files + 1,
        bytes: totals.bytes + u128::from(size),
        ..totals
    }
}
