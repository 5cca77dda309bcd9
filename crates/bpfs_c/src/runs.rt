//! The log as runs: stores to consecutive words, which a carrier copies at once.

ghost use Rattle.std.specs.Prelude.{◌≡◌};
ghost use Rattle.pm_runs.specs.Runs.{run_length};
ghost use Rattle.bpfs_c.specs.Events.{held_events};
ghost use Rattle.bpfs_c.specs.Runs.{HasPiece, seen_run};

use crate::handle::Handle;
use crate::log::{BARRIER, MARK, STORE};
use pm_region::Region;
use pm_runs::{RedoRegion, Run, run_at};
use std::alloc::Global;

/// A run of the log: stores to consecutive words, a barrier, or an end-of-call marker.
#[repr(C)]
#[derive(Clone, Copy, Drop)]
pub struct LogRun {
    /// `STORE`, `BARRIER` or `MARK`.
    pub kind: u32,
    /// The index of the first stored word, from the start of the image; 0 for other runs.
    pub word: u64,
}

/// Stores a run as C sees it, and returns its number of events.
fn report_run(run: Run, reported: &mut LogRun) -> usize
    ensures reported { reported.new ≡ seen_run run }
    ensures count { result ≡ run_length run }
{
    match run {
        Run::Stores { word, count } => {
            *reported = LogRun { kind: STORE, word };
            count
        }
        Run::Barrier => {
            *reported = LogRun {
                kind: BARRIER,
                word: 0,
            };
            1
        }
        Run::CallEnd => {
            *reported = LogRun {
                kind: MARK,
                word: 0,
            };
            1
        }
    }
}

/// Gets the run of a region's log that begins with event `first`, and returns its number of events.
fn copy_run(region: &RedoRegion, first: usize, reported: &mut LogRun, values: &mut [u64]) -> usize
    ensures { HasPiece region.now.events first reported.old values.old result reported.new values.new }
{
    if region.event_count() <= first {
        return 0;
    }
    report_run(run_at(region, first, values), reported)
}

/// Gets the run of the log that begins with event `first`, and returns its number of events.
#[unsafe(no_mangle)]
pub extern "C" fn bpfs_run_at(
    alloc: Global,
    handle: &mut Handle,
    first: usize,
    reported: &mut LogRun,
    values: &mut [u64],
) -> usize
    ensures run { HasPiece (held_events handle.old.held) first reported.old values.old result reported.new values.new }
    ensures same { handle.new.held ≡ handle.old.held }
{
    let Some(mounted) = handle.take(alloc) else {
        return 0;
    };
    let count = copy_run(mounted.volume.region(), first, reported, values);
    handle.put(alloc, mounted);
    count
}
