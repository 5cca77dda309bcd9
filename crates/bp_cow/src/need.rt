//! The number of blocks that a commit copies.

ghost use Rattle.std.specs.Prelude.{◌≡◌, ◌+◌, ◌<◌, ◌≤◌, length};
ghost use Rattle.bp_limits.specs.Limits.{block_words};
ghost use Rattle.pm_region.specs.Memory.{words_in};
ghost use Rattle.bp_cow.specs.Cover.{LeadsInside, copied_count};
ghost use Rattle.bp_cow.specs.Job.{ways, turned_for, copies_at};
ghost use Rattle.bp_cow.specs.Touched.{IsTouched, NoneBegins, all_paths, job_of};
ghost use Rattle.bp_cow.specs.Ways.{AreShared, IsWay};

use crate::covers::{FoundWays, find_ways};
use crate::touched::Touched;
use crate::ways::{Shared, Way, is_new};
use pm_region::Region;

/// Returns how many blocks on a way, below the first `from` slots, are copied for it and for no earlier way.
fn turned_for(touched: &Touched<'_>, way: &Way<'_>, from: usize) -> u32
    requires touched { IsTouched touched.now }
    requires way { IsWay touched.now way.now }
    ensures result { result ≡ turned_for (job_of touched.now) from way.now.index
        (length ((job_of touched.now).way way.now.index)) }
    ensures few { result ≤ 11 }
{
    let end = way.len;
    if end < from {
        return 0;
    }
    let mut count = 0;
    for depth in from..end {
        if is_new(touched, way, depth + 1) {
            count += 1;
        }
    }
    count
}

/// Returns how many blocks on a way are copied for it and for no earlier way, from the counts of a search.
fn turned_at(touched: &Touched<'_>, shared: &Shared, i: usize, from: usize) -> u32
    requires touched { IsTouched touched.now }
    requires shared { AreShared touched.now shared.now }
    requires i { i < ways (job_of touched.now) }
    ensures result { result ≡ turned_for (job_of touched.now) from i (length ((job_of touched.now).way i)) }
    ensures few { result ≤ 11 }
{
    if touched.adds_no_block(i, shared) {
        return 0;
    }
    turned_for(touched, &touched.way(i, shared), from)
}

/// Returns the number of blocks that a commit of the touched words copies and takes, from the result of a search of
/// their ways.
pub fn copies_below(touched: &Touched<'_>, found: &FoundWays) -> u32
    requires touched { IsTouched touched.now }
    requires shared { AreShared touched.now found.now.shared }
    ensures { result ≡ copies_at (job_of touched.now) found.now.cover.len }
{
    let from = found.cover.len;
    if touched.way_len(0, &found.shared) < from {
        return 0;
    }
    let ways = touched.ways(&found.shared.ends);
    let mut count = 1;
    for i in 0..ways {
        count += turned_at(touched, &found.shared, i, from);
    }
    count
}

/// Returns the number of blocks that a commit of the touched words copies and takes: the number of pointers on their
/// paths from the cover down. Needs no free block.
pub fn need_cover<R: Region>(region: &R, touched: &Touched<'_>) -> u32
    requires touched { IsTouched touched.now }
    requires some { block_words ≤ length (words_in R.memory region.now) }
    requires in_range { LeadsInside (words_in R.memory region.now) touched.now }
    requires apart { NoneBegins (all_paths touched.now) }
    ensures { result ≡ copied_count (words_in R.memory region.now) touched.now }
{
    copies_below(touched, &find_ways(region, touched))
}
