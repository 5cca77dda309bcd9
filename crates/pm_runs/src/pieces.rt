//! Pieces of a log.

ghost use Rattle.std.specs.Prelude.{◌≡◌, ◌<◌, ◌++◌, drop, length, min, take};
ghost use Rattle.pm_runs.specs.Runs.{ReportsRun};

use super::redo::RedoRegion;
use pm_epochs::EventKind;
use pm_region::{Region, Row};

/// A piece of a log.
#[derive(Clone, Copy, Debug, PartialEq, Eq)]
pub enum Run {
    /// Stores to `count` consecutive words, from `word` on.
    Stores {
        /// The first word.
        word: u64,
        /// The number of words.
        count: usize,
    },
    /// A barrier.
    Barrier,
    /// An end-of-call marker.
    CallEnd,
}

/// Copies the first of these values over the first of `into`, as many as there is room for, and returns their number.
fn copy_prefix(values: &[u64], into: &mut [u64]) -> usize
    ensures count { result ≡ min (length values.now) (length into.old) }
    ensures copied { into.new ≡ take result values.now ++ drop result into.old }
{
    let count = values.len().min(into.len());
    into[..count].copy_from_slice(&values[..count]);
    count
}

/// Returns the piece of a region's log that begins with event `first`, and puts the values of its stores into the
/// first places of `values`. A piece of stores has as many as the region's `row` returns, and at most as many as
/// `values` has places. It ends at a barrier, a marker, or a store to another word than the next one.
pub fn run_at(region: &RedoRegion, first: usize, values: &mut [u64]) -> Run
    requires { first < length region.now.events }
    ensures { ReportsRun region.now.events first values.old result values.new }
{
    let Row { kind, len } = region.row(first);
    match kind {
        EventKind::Store(word) => Run::Stores {
            word,
            count: copy_prefix(&region.values()[first..first + len], values),
        },
        EventKind::Barrier => Run::Barrier,
        EventKind::CallEnd => Run::CallEnd,
    }
}
