//! Carrying out one line.

ghost use Rattle.std.specs.Prelude.{◌≡◌, ◌≤◌, [], IfErr, IfOk, OnOk, false, length, true};
ghost use Rattle.pm_epochs.specs.Log.{barriers, call_ends};
ghost use Rattle.bp_io.specs.Files.{KeepsOthers, StaysAttached};
ghost use Rattle.bp_limits.specs.Limits.{log_events, max_mask};
ghost use Rattle.bp_replay.specs.Storm.{storm_cut};
ghost use Rattle.bp_replay.specs.Wanted.{cut_for, mask_places, wanted_by};
ghost use Rattle.bp_script.specs.Commands.Command.{sync};
ghost use Rattle.bp_script.specs.Commands.{command_of};
ghost use Rattle.bp_session.specs.Acting.{CrashesTo, Does, HasCrashed, LeavesDirty, NotesDrain, is_crash};
ghost use Rattle.bp_plain.specs.Seen.{call_of};
ghost use Rattle.bp_session.specs.Changed.{AreDirty, CoversCall};
ghost use Rattle.bp_session.specs.Held.{ClearsHeld, DoesHeld, StopsBy};
ghost use Rattle.bp_session.specs.Saving.{KeepsClean};
ghost use Rattle.bp_session.specs.Serving.{CanServe};
ghost use Rattle.bp_session.specs.declared.broken.Broken.TheVariants as cause;
ghost use Rattle.bp_session.specs.declared.outcome.Outcome.TheVariants.{Answered, Logged, Synced};
ghost use Rattle.bp_session.specs.Work.{answer_in, line_in, waiting_in};

use crate::broken::Broken;
use crate::caches::crash_by_caches;
use crate::outcome::Outcome;
use crate::save::{dirty_drained, dirty_each, sync_dirty};
use crate::work::LineBuffers;
use bp_fs::FileSystem;
use bp_io::{Failed, Files, Sink};
use bp_limits::MAX_LINE;
use bp_plain::Call;
use bp_replay::{Cut, choice_of, storm};
use bp_script::{Line, Syntax};
use pm_epochs::{BadChoice, Choice, EventKind};
use pm_region::Region;
use pm_steps::Backs;
use std::alloc::Global;

/// Crashes a file system at the crash point of a choice.
pub(crate) fn crash_to<V: FileSystem>(system: &mut V, choice: &Choice) -> Outcome
    ensures { CrashesTo V.behaviour (V.state system.old) choice.now.cut result (V.state system.new) }
{
    match system.crash(choice) {
        Ok(kept) => Outcome::Kept {
            c: kept.c,
            n: kept.n,
        },
        Err(BadChoice) => Outcome::BadChoice,
    }
}

/// Crashes a file system as a `crash` line asks.
fn crash<V: FileSystem>(system: &mut V, asked: &Cut<'_>, choice: &mut Choice) -> Outcome
    requires roomy { (V.behaviour.memory (V.state system.old)).capacity ≤ log_events }
    requires mask { mask_places asked.now ≤ max_mask }
    requires room { choice.old.room ≡ max_mask }
    ensures crashes { CrashesTo V.behaviour (V.state system.old) (cut_for (V.behaviour.memory (V.state system.old)).events (wanted_by asked.now)) result (V.state system.new) }
    ensures room { choice.new.room ≡ choice.old.room }
{
    // The log is no longer than its capacity.
    let _events = system.region().event_count();
    match choice_of(system.region(), asked, choice) {
        Ok(()) => crash_to(system, choice),
        Err(BadChoice) => Outcome::BadChoice,
    }
}

/// Crashes a file system at a random point, drawn from the seed of a storm.
fn crash_by_storm<V: FileSystem>(
    system: &mut V,
    seed: u64,
    backs: &mut Backs,
    choice: &mut Choice,
) -> Outcome
    requires roomy { (V.behaviour.memory (V.state system.old)).capacity ≤ log_events }
    requires flags { backs.old.room ≡ log_events }
    requires room { choice.old.room ≡ max_mask }
    ensures crashes { HasCrashed V.behaviour (V.state system.old) (storm_cut (V.behaviour.memory (V.state system.old)).events seed) result (V.state system.new) }
    ensures flags { backs.new.room ≡ backs.old.room }
    ensures room { choice.new.room ≡ choice.old.room }
{
    // The log is no longer than its capacity.
    let _events = system.region().event_count();
    storm(system.region(), seed, backs, choice);
    crash_to(system, choice)
}

/// Counts the events, barriers and calls of the log of a region.
fn count_log<R: Region>(region: &R) -> Outcome
    ensures { result ≡ Logged (length (R.memory region.now).events) (barriers (R.memory region.now).events)
        (call_ends (R.memory region.now).events) }
{
    let events = region.event_count();
    let mut barriers: usize = 0;
    let mut calls: usize = 0;
    for i in 0..events {
        match region.kind(i) {
            EventKind::Store(_) => {}
            EventKind::Barrier => barriers += 1,
            EventKind::CallEnd => calls += 1,
        }
    }
    Outcome::Logged {
        events,
        barriers,
        calls,
    }
}

/// Notes as dirty the blocks in which the drains of a call may change words. An upgrade to version 3 may drain several
/// times, between stores of its own: each block is dirty. Any other call drains at most the log as it is now.
fn dirty_call<R: Region>(region: &R, call: &Call<'_>, dirty: &mut [bool])
    ensures { CoversCall (call_of call.now) (R.memory region.now) dirty.old dirty.new }
{
    match call {
        Call::UpgradeToThree => dirty_each(dirty, true),
        _ => dirty_drained(region, dirty),
    }
}

/// Carries out the line of the buffers, as `act` does, except that a sync is left to be done: at `Outcome::Synced`
/// nothing is written back yet. The blocks in which a drain changed words are dirty.
// Inlined into its callers, so that an outcome need not go through memory, where it would be read in wider pieces
// than it was written: the processor stalls then.
#[inline(always)]
fn act_but_sync<V: FileSystem>(
    alloc: Global,
    system: &mut V,
    buffers: &mut LineBuffers,
    dirty: &mut [bool],
) -> Outcome
    requires { (V.behaviour.memory (V.state system.old)).capacity ≤ log_events }
    ensures does { ¬ (result ≡ Synced) →
        Does V.behaviour (V.state system.old) (command_of (line_in buffers.old)) result (answer_in buffers.new) (V.state system.new) }
    ensures left { result ≡ Synced → (command_of (line_in buffers.old) ≡ sync) × (V.state system.new ≡ V.state system.old) }
    ensures notes { NotesDrain result (command_of (line_in buffers.old)) (V.behaviour.memory (V.state system.old)) dirty.old dirty.new }
    ensures line { line_in buffers.new ≡ line_in buffers.old }
    ensures answer { ¬ (result ≡ Answered) → answer_in buffers.new ≡ answer_in buffers.old }
    ensures waiting { waiting_in buffers.new ≡ waiting_in buffers.old }
{
    if buffers.line.len() > MAX_LINE {
        return Outcome::TooLong;
    }
    match buffers.decoded.line(&buffers.line) {
        Ok(Line::Call(call)) => {
            dirty_call(system.region(), &call, dirty);
            system.apply(alloc, &call, &mut buffers.reply);
            Outcome::Answered
        }
        Ok(Line::Sync) => Outcome::Synced,
        Ok(Line::Space) => {
            let space = system.space();
            Outcome::Counted {
                free: space.free,
                live: space.live,
            }
        }
        Ok(Line::Crash(asked)) => crash(system, &asked, &mut buffers.choice),
        Ok(Line::Storm(seed)) => {
            crash_by_storm(system, seed, &mut buffers.backs, &mut buffers.choice)
        }
        Ok(Line::Cache(seed)) => crash_by_caches(
            alloc,
            system,
            seed,
            &mut buffers.caches,
            &mut buffers.choice,
        ),
        Ok(Line::Log) => count_log(system.region()),
        Err(Syntax) => Outcome::BadSyntax,
    }
}

/// Carries out the line of the buffers, over a file system only. The answer of a call is in the reply of the buffers. At
/// `Outcome::Synced` all is written back, and a file that shall hold it has to be saved. The capacity of the file system's
/// log is at most that of the memory of the buffers.
pub fn act<V: FileSystem>(alloc: Global, system: &mut V, buffers: &mut LineBuffers) -> Outcome
    requires { (V.behaviour.memory (V.state system.old)).capacity ≤ log_events }
    ensures does { Does V.behaviour (V.state system.old) (command_of (line_in buffers.old)) result (answer_in buffers.new) (V.state system.new) }
    ensures line { line_in buffers.new ≡ line_in buffers.old }
    ensures answer { ¬ (result ≡ Answered) → answer_in buffers.new ≡ answer_in buffers.old }
    ensures waiting { waiting_in buffers.new ≡ waiting_in buffers.old }
{
    match act_but_sync(alloc, system, buffers, &mut []) {
        Outcome::Synced => {
            system.sync();
            Outcome::Synced
        }
        outcome => outcome,
    }
}

/// Whether an outcome is that of a crash.
fn is_crash(outcome: Outcome) -> bool
    ensures { result ≡ is_crash outcome }
{
    match outcome {
        Outcome::Kept { .. } => true,
        _ => false,
    }
}

/// Notes as dirty each block if the region crashed: no log records the words that a crash leaves.
fn dirty_crash(outcome: Outcome, dirty: &mut [bool])
    ensures crashed { is_crash outcome ≡ true → AreDirty dirty.new }
    ensures others { is_crash outcome ≡ false → dirty.new ≡ dirty.old }
{
    if is_crash(outcome) {
        dirty_each(dirty, true);
    }
}

/// Carries out the line of the buffers. For a sync, the waiting replies go to the sink first. The sync then saves to
/// the attached file the dirty blocks and those to which a store went since the last drain. The sink breaks it off
/// before a sync is done, or the files as it saves.
#[inline(always)]
pub(crate) fn act_and_save<V: FileSystem, K: Sink, F: Files>(
    alloc: Global,
    system: &mut V,
    buffers: &mut LineBuffers,
    dirty: &mut [bool],
    out: &mut K,
    files: &mut F,
) -> Result<Outcome, Broken>
    requires { CanServe (V.behaviour.memory (V.state system.old)) (F.view files.old) }
    ensures does { IfOk result (DoesHeld V.behaviour F.view K.view
        buffers.old dirty.old (V.state system.old) files.old out.old
        buffers.new dirty.new (V.state system.new) files.new out.new) }
    ensures dirty { IfOk result (λ outcome.
        LeavesDirty outcome (command_of (line_in buffers.old)) (V.behaviour.memory (V.state system.old)) dirty.old dirty.new) }
    ensures kept { KeepsClean dirty.old (V.behaviour.memory (V.state system.old)) (F.view files.old) (F.view files.new) }
    ensures clears { OnOk result (ClearsHeld F.view K.view
        buffers.old files.old out.old
        buffers.new files.new out.new) }
    ensures stops { IfErr result (StopsBy V.behaviour F.view K.view
        buffers.old dirty.old (V.state system.old) files.old out.old
        buffers.new dirty.new (V.state system.new) files.new out.new) }
    ensures heard { IfErr result (λ broken. waiting_in buffers.old ≡ [] → broken ≡ cause.Files) }
    ensures synced { OnOk result (command_of (line_in buffers.old) ≡ sync → (F.view files.new).is_flushed ≡ true) }
    ensures flushed { OnOk result ((F.view files.old).is_flushed ≡ true → (F.view files.new).is_flushed ≡ true) }
    ensures sink { OnOk result ((K.view out.new).faults ≡ (K.view out.old).faults) }
    ensures files { OnOk result ((F.view files.new).faults ≡ (F.view files.old).faults) }
    ensures size { length (V.behaviour.memory (V.state system.new)).base ≡ length (V.behaviour.memory (V.state system.old)).base }
    ensures capacity { (V.behaviour.memory (V.state system.new)).capacity ≡ (V.behaviour.memory (V.state system.old)).capacity }
    ensures others { KeepsOthers (F.view files.old) (F.view files.new) }
    ensures attached { StaysAttached (F.view files.old) (F.view files.new) }
    ensures line { line_in buffers.new ≡ line_in buffers.old }
{
    match act_but_sync(alloc, system, buffers, dirty) {
        Outcome::Synced => match buffers.replies.hand_over(out) {
            Ok(()) => match sync_dirty(system, dirty, files) {
                Ok(()) => Ok(Outcome::Synced),
                Err(Failed) => Err(Broken::Files),
            },
            Err(Failed) => Err(Broken::Sink),
        },
        outcome => {
            dirty_crash(outcome, dirty);
            Ok(outcome)
        }
    }
}
