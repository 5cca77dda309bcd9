//! The log, which the caller carries event by event, and the words of the volume.

ghost use Rattle.std.specs.Prelude.{◌≡◌, ◌≤◌, ◌<◌, ◌+◌, ◌^◌, length, slice_range};
ghost use Rattle.pm_region.specs.Memory.{current_words};
ghost use Rattle.bpfs_c.specs.Events.{HasEvents, IsDrained, drained_events, held_events, seen_event};
ghost use Rattle.bpfs_c.specs.Serves.{Looked};
ghost use Rattle.bpfs_c.specs.Words.{CopiesWords};

use crate::codes::{CLOSED, OK, OUT_OF_RANGE};
use crate::handle::Handle;
use pm_epochs::Event;
use pm_region::{HEAD_WORDS, Region};
use pm_runs::RedoRegion;
use std::alloc::Global;

/// The kind of a store of a word.
pub const STORE: u32 = 0;

/// The kind of a barrier.
pub const BARRIER: u32 = 1;

/// The kind of an end-of-call marker.
pub const MARK: u32 = 2;

/// An event: a store of a word, a barrier, or an end-of-call marker.
#[repr(C)]
#[derive(Clone, Copy, Drop)]
pub struct Logged {
    /// `STORE`, `BARRIER` or `MARK`.
    pub kind: u32,
    /// The index of the stored word, from the start of the image; 0 for other events.
    pub word: u64,
    /// The stored value; 0 for other events.
    pub value: u64,
}

/// Converts an event to the record that C sees.
fn seen(event: Event) -> Logged
    ensures { result ≡ seen_event event }
{
    match event {
        Event::Store { word, value } => Logged {
            kind: STORE,
            word,
            value,
        },
        Event::Barrier => Logged {
            kind: BARRIER,
            word: 0,
            value: 0,
        },
        Event::CallEnd => Logged {
            kind: MARK,
            word: 0,
            value: 0,
        },
    }
}

/// Copies events of a region's log from index `first` on, as many as there are and `into` has room for. Returns their
/// number.
pub(crate) fn copy_events(region: &RedoRegion, first: usize, into: &mut [Logged]) -> usize
    ensures { HasEvents region.now.events first into.old result into.new }
{
    let count = region.event_count().saturating_sub(first).min(into.len());
    for i in 0..count {
        into[i] = seen(region.event(first + i));
    }
    count
}

/// Returns the number of events of the log; 0 if the handle holds no volume.
#[unsafe(no_mangle)]
pub extern "C" fn bpfs_event_count(alloc: Global, handle: &mut Handle) -> usize
    ensures count { result ≡ length (held_events handle.old.held) }
    ensures same { handle.new.held ≡ handle.old.held }
{
    let Some(mounted) = handle.take(alloc) else {
        return 0;
    };
    let count = mounted.volume.region().event_count();
    handle.put(alloc, mounted);
    count
}

/// Copies events of the log from index `first` on, and returns their number; 0 if the handle holds no volume.
#[unsafe(no_mangle)]
pub extern "C" fn bpfs_events(
    alloc: Global,
    handle: &mut Handle,
    first: usize,
    into: &mut [Logged],
) -> usize
    ensures events { HasEvents (held_events handle.old.held) first into.old result into.new }
    ensures same { handle.new.held ≡ handle.old.held }
{
    let Some(mounted) = handle.take(alloc) else {
        return 0;
    };
    let count = copy_events(mounted.volume.region(), first, into);
    handle.put(alloc, mounted);
    count
}

/// Empties the log, all of which the caller has carried.
#[unsafe(no_mangle)]
pub extern "C" fn bpfs_drain(alloc: Global, handle: &mut Handle) -> u32
    ensures { IsDrained handle.old.held result handle.new.held }
{
    let Some(mut mounted) = handle.take(alloc) else {
        return CLOSED;
    };
    let events = mounted.volume.region().event_count() as u64;
    mounted.drained = mounted.drained.wrapping_add(events);
    mounted.volume.sync();
    handle.put(alloc, mounted);
    OK
}

/// Returns how many events drains have removed from the log since the mount, modulo 2^64, or 0 for a closed handle.
/// Added to an index in the log, it numbers each event since the mount.
#[unsafe(no_mangle)]
pub extern "C" fn bpfs_drained(alloc: Global, handle: &mut Handle) -> u64
    ensures count { result ≡ drained_events handle.old.held }
    ensures same { handle.new.held ≡ handle.old.held }
{
    let Some(mounted) = handle.take(alloc) else {
        return 0;
    };
    let count = mounted.drained;
    handle.put(alloc, mounted);
    count
}

/// Copies words of a region from index `first` on, one by one.
fn copy_by_word(region: &RedoRegion, first: u64, into: &mut [u64])
    requires in_range { first + length into.old ≤ length region.now.base }
    requires fits { first + length into.old < 2 ^ 41 }
    ensures { into.new ≡ slice_range (current_words region.now) first (first + length into.old) }
{
    for i in 0..into.len() {
        into[i] = region.load(first + i as u64);
    }
}

/// Copies words of a region from index `first` on, all of which are past its head.
fn copy_run(region: &RedoRegion, first: u64, into: &mut [u64])
    requires in_range { first + length into.old ≤ length region.now.base }
    requires fits { first + length into.old < 2 ^ 41 }
    requires after_head { 0 < length into.old → HEAD_WORDS ≤ first }
    ensures { into.new ≡ slice_range (current_words region.now) first (first + length into.old) }
{
    if into.is_empty() {
        return;
    }
    into.copy_from_slice(region.load_words(first, into.len()));
}

/// Copies words of a region from index `first` on, if it has that many.
fn copy_words(region: &RedoRegion, first: u64, into: &mut [u64]) -> u32
    ensures { CopiesWords (current_words region.now) first into.old result into.new }
{
    let words = region.words();
    if words < first || ((words - first) as usize) < into.len() {
        return OUT_OF_RANGE;
    }
    // The words of the head are read one by one.
    let head = (HEAD_WORDS.saturating_sub(first) as usize).min(into.len());
    let (prefix, rest) = into.split_at_mut(head);
    copy_by_word(region, first, prefix);
    copy_run(region, first + head as u64, rest);
    OK
}

/// Copies words as they are now.
#[unsafe(no_mangle)]
pub extern "C" fn bpfs_words(
    alloc: Global,
    handle: &mut Handle,
    first: u64,
    into: &mut [u64],
) -> u32
    ensures { Looked handle.old.held (λ held. CopiesWords (current_words held.volume) first into.old result into.new)
        (into.new ≡ into.old) result handle.new.held }
{
    let Some(mounted) = handle.take(alloc) else {
        return CLOSED;
    };
    let code = copy_words(mounted.volume.region(), first, into);
    handle.put(alloc, mounted);
    code
}
