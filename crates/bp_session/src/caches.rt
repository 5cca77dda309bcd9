//! The caches for a `cache` line.

ghost use Rattle.std.specs.Prelude.{◌≡◌, ◌≤◌, IfOk};
ghost use Rattle.bp_limits.specs.Limits.{log_events, max_mask};
ghost use Rattle.bp_session.specs.Acting.{CrashesByCaches};
ghost use Rattle.bp_session.specs.Caching.{IsTwoCaches};

use crate::actions::crash_to;
use crate::outcome::Outcome;
use bp_fs::FileSystem;
use bp_limits::LOG_EVENTS;
use bp_replay::cache;
use pm_cores::Cores;
use pm_epochs::Choice;
use pm_region::Region;
use std::alloc::{AllocError, Global};

/// The number of cores: one does what the log records, the other reads.
const CORES: u32 = 2;

/// The number of words of a cache line.
const LINE_WORDS: u64 = 8;

/// The caches of two cores over a number of words, with room for each event of a log and a load after it.
#[derive(Drop)]
pub(crate) struct TwoCaches {
    words: u64,
    cores: Cores,
    ghost two: { IsTwoCaches words cores },
}

impl TwoCaches {
    /// Makes caches that have done nothing. Fails if memory lacks, or if the words are no whole cache lines, as those of
    /// a file system always are.
    fn new(alloc: Global, words: u64) -> Result<Self, AllocError>
        ensures { IfOk result (λ caches. caches.words ≡ words) }
    {
        if words == 0 || words % LINE_WORDS != 0 {
            return Err(AllocError);
        }
        Ok(TwoCaches {
            words,
            cores: Cores::new(alloc, CORES, words, 2 * LOG_EVENTS)?,
        })
    }
}

/// Takes the caches for this number of words: those held from the last use, or new ones if there are none or they are
/// for another number.
fn take_caches(
    alloc: Global,
    words: u64,
    held: &mut Option<TwoCaches>,
) -> Result<TwoCaches, AllocError>
    ensures { IfOk result (λ caches. caches.words ≡ words) }
{
    if let Some(caches) = held.take() {
        if caches.words == words {
            return Ok(caches);
        }
    }
    TwoCaches::new(alloc, words)
}

/// Crashes a file system to the words that the caches of two cores leave, in a run drawn from the seed. The caches are
/// held for the next such line.
pub(crate) fn crash_by_caches<V: FileSystem>(
    alloc: Global,
    system: &mut V,
    seed: u64,
    held: &mut Option<TwoCaches>,
    choice: &mut Choice,
) -> Outcome
    requires roomy { (V.behaviour.memory (V.state system.old)).capacity ≤ log_events }
    requires room { choice.old.room ≡ max_mask }
    ensures crashes { CrashesByCaches V.behaviour (V.state system.old) seed result (V.state system.new) }
    ensures room { choice.new.room ≡ choice.old.room }
{
    // The log is no longer than its capacity, and its stores are within the words.
    let _events = system.region().event_count();
    let mut caches = match take_caches(alloc, system.region().words(), held) {
        Ok(caches) => caches,
        Err(AllocError) => return Outcome::NoMemory,
    };
    cache(system.region(), seed, &mut caches.cores, choice);
    *held = Some(caches);
    crash_to(system, choice)
}
