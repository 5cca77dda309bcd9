//! A log of two epochs, the words that a crash leaves of it, and both regions.

use crate::same::same;
use bp_second::Shown;
use pm_epochs::{BadChoice, Choice, Event, EventKind, Kept, check_choice, kept_calls, replay_word};
use pm_raw::RawRegion;
use pm_region::{ListRegion, Region};
use pm_steps::{Backs, Machine, NotYet};
use std::alloc::Global;
use std::process::Abort;

/// A log of two epochs over three words.
const TWO_EPOCHS: [Event; 5] = [
    Event::Store { word: 0, value: 1 },
    Event::Store { word: 1, value: 2 },
    Event::Store { word: 0, value: 3 },
    Event::Barrier,
    Event::Store { word: 2, value: 4 },
];

/// A choice of the stores that survive a crash in the two epochs, by its event count, its epoch and its mask, and the
/// words that it leaves over words of 0: `None` if it is no valid crash point of the log.
type Crash = (usize, usize, &'static [bool], Option<[u64; 3]>);

const CRASHES: [Crash; 7] = [
    (5, 0, &[false, false, true], Some([3, 0, 0])),
    (5, 0, &[false, true, false], Some([0, 2, 0])),
    (5, 1, &[], Some([3, 2, 0])),
    (5, 1, &[true], Some([3, 2, 4])),
    (2, 1, &[], None),
    (5, 1, &[true, true], None),
    (6, 0, &[], None),
];

fn chosen(rt: &impl Abort, alloc: Global, moment: usize, epoch: usize, mask: &[bool]) -> Choice {
    let mut choice = Choice::new(alloc, 8).expect(rt, "there is memory");
    choice.start(moment, epoch);
    for keep in mask {
        if choice.mask().len() < choice.room() {
            choice.push(*keep);
        }
    }
    choice
}

#[test]
fn replays_of_two_epochs(rt: HostRuntime) {
    for (moment, epoch, mask, left) in &CRASHES {
        let choice = chosen(&rt, rt.alloc(), *moment, *epoch, *mask);
        match left {
            Some(words) => {
                for word in 0..3u64 {
                    let value = replay_word(0, &TWO_EPOCHS, &choice, word).ok();
                    let wanted = Some(words[word as usize]);
                    same(&rt, (*epoch, word, value), (*epoch, word, wanted));
                }
            }
            None => same(&rt, check_choice(&TWO_EPOCHS, &choice), Err(BadChoice)),
        }
    }
}

#[test]
fn calls_without_a_store_are_kept(rt: HostRuntime) {
    let events = [
        Event::CallEnd,
        Event::Store { word: 0, value: 1 },
        Event::Barrier,
        Event::CallEnd,
        Event::CallEnd,
    ];
    let none = chosen(&rt, rt.alloc(), 0, 0, &[]);
    same(&rt, kept_calls(&events, &none), Ok(Kept { c: 1, n: 3 }));
    let all = chosen(&rt, rt.alloc(), 5, 1, &[]);
    same(&rt, kept_calls(&events, &all), Ok(Kept { c: 3, n: 3 }));
}

fn list(rt: &impl Abort, alloc: Global, words: u32, capacity: usize) -> ListRegion {
    let zeros = vec![in alloc; 0u64; words as usize].expect(rt, "there is memory");
    ListRegion::new(alloc, zeros, capacity).expect(rt, "there is memory")
}

fn raw(rt: &impl Abort, alloc: Global, words: u32, capacity: usize) -> RawRegion {
    RawRegion::new(alloc, words as u64, capacity).expect(rt, "there is memory")
}

/// Does an event to a region that has its word, and room.
fn follow_one<R: Region>(region: &mut R, event: Event) {
    if region.room() == 0 {
        return;
    }
    match event {
        Event::Store { word, value } => {
            if word < region.words() {
                region.store(word, value);
            }
        }
        Event::Barrier => region.barrier(),
        Event::CallEnd => region.end_call(),
    }
}

/// Does these events to a region, those for which it has a word and room.
fn follow<R: Region>(region: &mut R, events: &[Event]) {
    for event in events {
        follow_one(region, *event);
    }
}

/// Whether an event of a region's log is this one: by itself, by its kind, and by the word that it stores to.
fn has_event<R: Region>(region: &R, i: usize, event: Event) -> bool {
    if i >= region.event_count() || region.event(i) != event || region.kind(i) != event.kind() {
        return false;
    }
    match event {
        Event::Store { word, value } => {
            word >= region.words() || region.word_at(i + 1, word) == value
        }
        Event::Barrier => true,
        Event::CallEnd => true,
    }
}

/// Whether a region's log has exactly these events.
fn has_log<R: Region>(region: &R, log: &[Event]) -> bool {
    for (i, event) in log.iter().enumerate() {
        if !has_event(region, i, *event) {
            return false;
        }
    }
    log.len() == region.event_count()
}

/// Whether these are the words of a region, as the processor sees them and at the last drain.
fn stands_at<R: Region>(region: &R, now: &[u64], base: &[u64]) -> bool {
    let words = region.words();
    for word in 0..words {
        if now.get(word as usize) != Some(&region.load(word)) {
            return false;
        }
        if base.get(word as usize) != Some(&region.base_word(word)) {
            return false;
        }
    }
    now.len() == words as usize
}

/// A step that is done to a region: at first nothing.
#[derive(Clone, Copy)]
enum Step {
    Look,
    Log(Event),
    Drain,
}

/// A step, the log with room for two events after it, and the words, as the processor sees them and at the last
/// drain.
type Stepped = (Step, &'static [Event], [u64; 4], [u64; 4]);

const FIVE: Event = Event::Store { word: 1, value: 5 };

/// A store and a barrier fill the log, and a drain writes the store to the words at the last drain.
const STEPS: [Stepped; 4] = [
    (Step::Look, &[], [0; 4], [0; 4]),
    (Step::Log(FIVE), &[FIVE], [0, 5, 0, 0], [0; 4]),
    (
        Step::Log(Event::Barrier),
        &[FIVE, Event::Barrier],
        [0, 5, 0, 0],
        [0; 4],
    ),
    (Step::Drain, &[], [0, 5, 0, 0], [0, 5, 0, 0]),
];

fn take_step<R: Region>(region: &mut R, step: Step) {
    match step {
        Step::Look => {}
        Step::Log(event) => follow_one(region, event),
        Step::Drain => region.drain(),
    }
}

fn takes_steps<R: Region, A: Abort>(rt: &A, region: &mut R) {
    for (step, log, now, base) in &STEPS {
        take_step(region, *step);
        assert!(rt; has_log(region, *log));
        same(rt, Some(region.room()), 2usize.checked_sub(log.len()));
        assert!(rt; stands_at(region, now, base));
    }
}

/// Checks the crashes of three words of 0, with room for the two epochs.
fn crash_leaves<R: Region, A: Abort>(
    rt: &A,
    region: &mut R,
    choice: &Choice,
    left: Option<[u64; 3]>,
) {
    follow(region, &TWO_EPOCHS);
    same(rt, region.event_count(), 5);
    let answer = region.crash_to(choice);
    match left {
        Some(words) => {
            same(rt, answer, Ok(Kept { c: 0, n: 0 }));
            same(rt, region.event_count(), 0);
            assert!(rt; region.words() == 3);
            for word in 0..3u64 {
                let found = [region.load(word), region.base_word(word)];
                same(rt, (word, found), (word, [words[word as usize]; 2]));
            }
        }
        None => {
            same(rt, answer, Err(BadChoice));
            same(rt, region.event_count(), 5);
        }
    }
}

/// Checks a crash that loses a store before one that it keeps: the call of both does not survive.
fn crash_keeps_what_was_written_back<R: Region, A: Abort>(rt: &A, region: &mut R, choice: &Choice) {
    let events = [
        Event::Store { word: 0, value: 1 },
        Event::Store { word: 1, value: 2 },
        Event::CallEnd,
    ];
    follow(region, &events);
    same(rt, region.crash_to(choice), Ok(Kept { c: 0, n: 1 }));
    same(rt, region.event_count(), 0);
    assert!(rt; region.words() == 4);
    same(rt, [region.load(0), region.load(1)], [0, 2]);
}

#[test]
fn a_raw_region_crashes(rt: HostRuntime) {
    for (moment, epoch, mask, left) in &CRASHES {
        let choice = chosen(&rt, rt.alloc(), *moment, *epoch, *mask);
        crash_leaves(&rt, &mut raw(&rt, rt.alloc(), 3, 8), &choice, *left);
    }
}

#[test]
fn a_list_region_crashes(rt: HostRuntime) {
    for (moment, epoch, mask, left) in &CRASHES {
        let choice = chosen(&rt, rt.alloc(), *moment, *epoch, *mask);
        crash_leaves(&rt, &mut list(&rt, rt.alloc(), 3, 8), &choice, *left);
    }
}

#[test]
fn both_regions_keep_what_was_written_back(rt: HostRuntime) {
    let choice = chosen(&rt, rt.alloc(), 2, 0, &[false, true]);
    crash_keeps_what_was_written_back(&rt, &mut raw(&rt, rt.alloc(), 4, 8), &choice);
    crash_keeps_what_was_written_back(&rt, &mut list(&rt, rt.alloc(), 4, 8), &choice);
}

#[test]
fn both_regions_drain(rt: HostRuntime) {
    takes_steps(&rt, &mut raw(&rt, rt.alloc(), 4, 2));
    takes_steps(&rt, &mut list(&rt, rt.alloc(), 4, 2));
}

/// The words of a region, and those that it shows with its second tree in place of the first.
const TREES: [u64; 10] = [0, 1, 2, 3, 4, 5, 6, 7, 8, 9];

const SECOND: [u64; 10] = [0, 1, 4, 5, 4, 5, 6, 7, 8, 9];

#[test]
fn a_second_tree_is_shown_first(rt: HostRuntime) {
    let words = Vec::from_slice(rt.alloc(), &TREES).expect(&rt, "there is memory");
    let mut region = ListRegion::new(rt.alloc(), words, 2).expect(&rt, "there is memory");
    assert!(rt; region.words() == 10);
    let mut shown = Shown::second(&region);
    assert!(rt; stands_at(&shown, &SECOND, &SECOND));
    assert!(rt; shown.words() == 10);
    same(&rt, shown.load_words(8, 2), [8, 9].as_slice());
    let none = chosen(&rt, rt.alloc(), 0, 0, &[]);
    same(&rt, shown.crash_to(&none), Ok(Kept { c: 0, n: 0 }));
    shown.drain();
    assert!(rt; has_log(&shown, &[]));
    assert!(rt; stands_at(&shown, &SECOND, &SECOND));
    same(&rt, shown.room(), 0);
    takes_event(&rt, &mut Shown::First(&mut region));
}

/// Checks that a store goes through to the region that is shown unchanged.
fn takes_event<R: Region, A: Abort>(rt: &A, region: &mut R) {
    follow_one(region, FIVE);
    assert!(rt; has_log(region, &[FIVE]));
    assert!(rt; stands_at(region, &[0, 5, 2, 3, 4, 5, 6, 7, 8, 9], &TREES));
}

#[test]
fn a_log_too_long_is_refused(rt: HostRuntime) {
    assert!(rt; RawRegion::new(rt.alloc(), 1, usize::MAX).is_err());
}

/// A store of the two epochs to be written back, by its index in the log, the result, and the memory afterwards.
type WriteBack = (usize, Result<(), NotYet>, [u64; 3]);

const WRITE_BACKS: [WriteBack; 7] = [
    (4, Err(NotYet { needs: 0 }), [0, 0, 0]),
    (2, Err(NotYet { needs: 0 }), [0, 0, 0]),
    (1, Ok(()), [0, 2, 0]),
    (0, Ok(()), [1, 2, 0]),
    (4, Err(NotYet { needs: 2 }), [1, 2, 0]),
    (2, Ok(()), [3, 2, 0]),
    (4, Ok(()), [3, 2, 4]),
];

fn execute_all<R: Region>(machine: &mut Machine<'_, R>) {
    for _ in 0..TWO_EPOCHS.len() {
        if machine.moment() < machine.region.event_count() {
            machine.execute();
        }
    }
}

/// Writes an event of the log back: `None` if it was not executed, is written back, or is no store.
fn write_back<R: Region>(machine: &mut Machine<'_, R>, which: usize) -> Option<Result<(), NotYet>> {
    if which >= machine.moment() || machine.is_back(which) {
        return None;
    }
    match machine.region.kind(which) {
        EventKind::Store(_) => Some(machine.back(which)),
        EventKind::Barrier => None,
        EventKind::CallEnd => None,
    }
}

fn has_words<R: Region>(machine: &Machine<'_, R>, words: &[u64; 3]) -> bool {
    if machine.region.words() != 3 {
        return false;
    }
    for word in 0..3u64 {
        if machine.image_word(word) != words[word as usize] {
            return false;
        }
    }
    true
}

/// All stores of an epoch are written back before any of the next one, and those to one word in their order.
#[test]
fn stores_go_back_in_order(rt: HostRuntime) {
    let mut region = list(&rt, rt.alloc(), 3, 8);
    follow(&mut region, &TWO_EPOCHS);
    same(&rt, region.event_count(), 5);
    let mut backs = Backs::new(rt.alloc(), 8).expect(&rt, "there is memory");
    let mut machine = Machine::over(&region, &mut backs);
    execute_all(&mut machine);
    for (which, answer, words) in &WRITE_BACKS {
        let found = write_back(&mut machine, *which);
        same(&rt, (*which, found), (*which, Some(*answer)));
        assert!(rt; has_words(&machine, words), "{which}");
    }
}
