//! Plays over a file system.

ghost use Rattle.std.specs.Prelude.{◌≡◌, ◌≤◌, vec_capacity};
ghost use Rattle.bp_limits.specs.Limits.{log_events, max_turns};
ghost use Rattle.bp_plain.specs.Seen.{call_of};
ghost use Rattle.bp_play.specs.Counting.{CanCount};
ghost use Rattle.bp_play.specs.Playing.{Plays, TakesTurn};
ghost use Rattle.bp_play.specs.Turning.{IsSmall, IsSmallTurn, bytes_by, call_by, command_by, most_bytes};
ghost use Rattle.bp_script.specs.Commands.Command.{file_call, storm};

use crate::operations::{LENGTHS, PlayCall, Turn, draw_turn};
use crate::summary::Summary;
use bp_fs::FileSystem;
use bp_limits::LOG_EVENTS;
use bp_plain::{Call, Reply};
use bp_replay::{Generator, storm};
use pm_epochs::Choice;
use pm_region::Region;
use pm_steps::Backs;
use std::alloc::{AllocError, Global};

/// The greatest number of bytes that an operation writes.
const MOST_BYTES: usize = LENGTHS as usize;

/// The memory of a play, which allocates no other.
#[derive(Drop)]
pub struct PlayBuffers {
    bytes: Vec<u8>,
    reply: Reply,
    choice: Choice,
    backs: Backs,
    ghost writes: { most_bytes ≤ vec_capacity bytes },
    ghost chooses: { choice.room ≡ log_events },
    ghost flags: { backs.room ≡ log_events },
}

impl PlayBuffers {
    /// Allocates memory for logs of a program's region. Fails only if memory lacks.
    pub fn new(alloc: Global) -> Result<PlayBuffers, AllocError> {
        Ok(PlayBuffers {
            bytes: Vec::with_capacity(alloc, MOST_BYTES)?,
            reply: Reply::new(alloc)?,
            choice: Choice::new(alloc, LOG_EVENTS)?,
            backs: Backs::new(alloc, LOG_EVENTS)?,
        })
    }
}

/// Sets the bytes to those that a call writes.
fn fill(bytes: &mut Vec<u8>, call: &PlayCall)
    requires small { IsSmall call.now }
    requires room { most_bytes ≤ vec_capacity bytes.old }
    ensures items { bytes.new.items ≡ bytes_by call.now }
    ensures room { most_bytes ≤ vec_capacity bytes.new }
{
    bytes.clear();
    if let PlayCall::Write { len, byte, .. } = *call {
        match bytes.resize(len, byte) {
            Ok(()) => {}
            Err(_) => unreachable!(),
        }
    }
}

/// Makes a call with the bytes that it writes.
fn with_bytes<'a>(call: &'a PlayCall, bytes: &'a [u8]) -> Call<'a>
    requires { bytes.now ≡ bytes_by call.now }
    ensures { call_of result ≡ call_by call.now }
{
    match call {
        PlayCall::Create(path) => Call::Create(path.as_bytes()),
        PlayCall::Mkdir(path) => Call::Mkdir(path.as_bytes()),
        PlayCall::Unlink(path) => Call::Unlink(path.as_bytes()),
        PlayCall::Rmdir(path) => Call::Rmdir(path.as_bytes()),
        PlayCall::Read { path, offset, len } => Call::Read {
            path: path.as_bytes(),
            offset: *offset,
            len: *len,
        },
        PlayCall::Write { path, offset, .. } => Call::Write {
            path: path.as_bytes(),
            offset: *offset,
            bytes,
        },
        PlayCall::Truncate { path, size } => Call::Truncate {
            path: path.as_bytes(),
            size: *size,
        },
        PlayCall::Rename { from, to } => Call::Rename {
            from: from.as_bytes(),
            to: to.as_bytes(),
        },
    }
}

/// Makes a call, and counts its answer.
fn make_call<V: FileSystem>(
    alloc: Global,
    system: &mut V,
    call: &PlayCall,
    buffers: &mut PlayBuffers,
    summary: &mut Summary,
)
    requires small { IsSmall call.now }
    requires room { CanCount summary.old }
    ensures { TakesTurn V.behaviour (V.state system.old) (V.state system.new) (file_call (call_by call.now)) summary.old summary.new }
{
    fill(&mut buffers.bytes, call);
    let asked = with_bytes(call, &buffers.bytes);
    system.apply(alloc, &asked, &mut buffers.reply);
    summary.count_answer(&buffers.reply.answer());
}

/// Crashes the file system as a storm chooses, and counts the calls that it keeps.
fn raise_storm<V: FileSystem>(
    system: &mut V,
    seed: u64,
    buffers: &mut PlayBuffers,
    summary: &mut Summary,
)
    requires roomy { (V.behaviour.memory (V.state system.old)).capacity ≤ log_events }
    requires room { CanCount summary.old }
    ensures { TakesTurn V.behaviour (V.state system.old) (V.state system.new) (storm seed) summary.old summary.new }
{
    // The log is no longer than its capacity.
    let _events = system.region().event_count();
    storm(
        system.region(),
        seed,
        &mut buffers.backs,
        &mut buffers.choice,
    );
    match system.crash(&buffers.choice) {
        Ok(kept) => summary.count_storm(kept),
        Err(_) => unreachable!(),
    }
}

/// Carries out one operation.
fn take_turn<V: FileSystem>(
    alloc: Global,
    system: &mut V,
    turn: &Turn,
    buffers: &mut PlayBuffers,
    summary: &mut Summary,
)
    requires roomy { (V.behaviour.memory (V.state system.old)).capacity ≤ log_events }
    requires small { IsSmallTurn turn.now }
    requires room { CanCount summary.old }
    ensures { TakesTurn V.behaviour (V.state system.old) (V.state system.new) (command_by turn.now) summary.old summary.new }
{
    match turn {
        Turn::Call(call) => make_call(alloc, system, call, buffers, summary),
        Turn::Storm(seed) => raise_storm(system, *seed, buffers, summary),
    }
}

/// Carries out `count` operations, at most 1,000,000, each made from the seed and the operations before it, and sums
/// up their replies. The same image, seed and count give the same summary. The capacity of the file system's log is at
/// most that of the buffers.
pub fn play_on<V: FileSystem>(
    alloc: Global,
    system: &mut V,
    buffers: &mut PlayBuffers,
    seed: u64,
    count: u32,
) -> Summary
    requires few { count ≤ max_turns }
    requires roomy { (V.behaviour.memory (V.state system.old)).capacity ≤ log_events }
    ensures { Plays V.behaviour (V.state system.old) (V.state system.new) seed count result }
{
    let mut summary = Summary::new();
    let mut generator = Generator::new(seed);
    for _turn in 0..count {
        let turn = draw_turn(&mut generator);
        take_turn(alloc, system, &turn, buffers, &mut summary);
    }
    summary
}
