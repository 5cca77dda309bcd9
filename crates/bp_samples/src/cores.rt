//! The effect of a few steps of two cores on their caches and on the memory.

ghost use Rattle.std.specs.Prelude.{◌≡◌, ◌<◌, IfOk, length, true};
ghost use Rattle.bp_samples.specs.Cores.{AreTwo};

use crate::same::same;
use pm_cores::{Cores, NotYet};
use pm_region::{ListRegion, Region};
use std::alloc::{AllocError, Global};

const CORES: u32 = 2;

/// The number of words of the memory: two cache lines.
const WORDS: u64 = 16;

/// The number of entries of the caches' log.
const ROOM: usize = 8;

/// A step, and its expected result.
#[derive(Clone, Copy)]
enum Step {
    Store { core: u32, word: u64, value: u64 },
    Barrier { core: u32 },
    Load { core: u32, word: u64, value: u64 },
    /// A word is written back, unless another one has to be written back before it.
    Back { word: u64, needs: Option<u64> },
}

/// Steps over a memory of zeros, and some of its words after them.
type Row = (&'static [Step], &'static [(u64, u64)]);

const ROWS: [Row; 4] = [
    // An epoch is written back before a later one, and a load by another core settles.
    (
        &[
            Step::Store {
                core: 0,
                word: 0,
                value: 1,
            },
            Step::Barrier { core: 0 },
            Step::Store {
                core: 0,
                word: 8,
                value: 2,
            },
            Step::Back {
                word: 8,
                needs: Some(0),
            },
            Step::Load {
                core: 1,
                word: 8,
                value: 2,
            },
        ],
        &[(0, 1), (8, 2)],
    ),
    // A store to a line of an older epoch settles that epoch, and waits itself.
    (
        &[
            Step::Store {
                core: 0,
                word: 0,
                value: 1,
            },
            Step::Barrier { core: 0 },
            Step::Store {
                core: 0,
                word: 1,
                value: 2,
            },
        ],
        &[(0, 1), (1, 0)],
    ),
    // The words that settle are those of one core.
    (
        &[
            Step::Store {
                core: 0,
                word: 0,
                value: 1,
            },
            Step::Store {
                core: 1,
                word: 8,
                value: 5,
            },
            Step::Load {
                core: 1,
                word: 0,
                value: 1,
            },
        ],
        &[(0, 1), (8, 0)],
    ),
    // A store after a write-back waits.
    (
        &[
            Step::Store {
                core: 0,
                word: 0,
                value: 1,
            },
            Step::Back {
                word: 0,
                needs: None,
            },
            Step::Store {
                core: 0,
                word: 0,
                value: 2,
            },
        ],
        &[(0, 1)],
    ),
];

/// Makes two cores that have done nothing.
fn two_cores(alloc: Global) -> Result<Cores, AllocError>
    ensures { IfOk result AreTwo }
{
    Cores::new(alloc, CORES, WORDS, ROOM)
}

/// Whether a core may do a step at a word.
fn may_step(cores: &Cores, core: u32, word: u64) -> bool
    ensures core { result ≡ true → core < CORES }
    ensures word { result ≡ true → word < WORDS }
    ensures room { result ≡ true → length cores.now.log < cores.now.capacity }
{
    core < CORES && word < WORDS && cores.room() > 0
}

/// Stores a value, if that is allowed.
fn store(cores: &mut Cores, core: u32, word: u64, value: u64) -> bool
    requires { AreTwo cores.old }
    ensures { AreTwo cores.new }
{
    if !may_step(cores, core, word) {
        return false;
    }
    cores.store(core, word, value);
    true
}

/// Ends an epoch, if that is allowed.
fn end_epoch(cores: &mut Cores, core: u32) -> bool
    requires { AreTwo cores.old }
    ensures { AreTwo cores.new }
{
    if !may_step(cores, core, 0) {
        return false;
    }
    cores.barrier(core);
    true
}

/// Returns the value that a core loads, if that is allowed.
fn load<R: Region>(region: &R, cores: &mut Cores, core: u32, word: u64) -> Option<u64>
    requires { AreTwo cores.old }
    ensures { AreTwo cores.new }
{
    if region.words() != WORDS || !may_step(cores, core, word) {
        return None;
    }
    Some(cores.load(region, core, word))
}

/// Writes a dirty word back, or returns the word that has to be written back before it.
fn write_back(cores: &mut Cores, word: u64) -> Option<u64>
    requires { AreTwo cores.old }
    ensures { AreTwo cores.new }
{
    if word >= WORDS || !cores.is_dirty(word) {
        return None;
    }
    match cores.back(word) {
        Ok(()) => None,
        Err(NotYet { needs }) => Some(needs),
    }
}

/// Does a step, and returns whether it had its expected result.
fn gives<R: Region>(step: Step, region: &R, cores: &mut Cores) -> bool
    requires { AreTwo cores.old }
    ensures { AreTwo cores.new }
{
    match step {
        Step::Store { core, word, value } => store(cores, core, word, value),
        Step::Barrier { core } => end_epoch(cores, core),
        Step::Load { core, word, value } => load(region, cores, core, word) == Some(value),
        Step::Back { word, needs } => write_back(cores, word) == needs,
    }
}

/// Returns a word of the memory.
fn word_of<R: Region>(region: &R, cores: &Cores, word: u64) -> Option<u64>
    requires { AreTwo cores.now }
{
    if word < WORDS && region.words() == WORDS {
        Some(cores.memory_word(region, word))
    } else {
        None
    }
}

#[test]
fn caches_of_two_cores(rt: HostRuntime) {
    let zeros = vec![in rt.alloc(); 0u64; WORDS as usize].expect(&rt, "there is memory");
    let region = ListRegion::new(rt.alloc(), zeros, 1).expect(&rt, "there is memory");
    for (steps, left) in &ROWS {
        let mut cores = two_cores(rt.alloc()).expect(&rt, "there is memory");
        for step in *steps {
            assert!(rt; gives(*step, &region, &mut cores));
        }
        for (word, value) in *left {
            same(
                &rt,
                (*word, word_of(&region, &cores, *word)),
                (*word, Some(*value)),
            );
        }
    }
}
