//! Sources and sinks over memory.

ghost use Rattle.std.specs.Prelude.{[], IsErr, IfOk, OnErr, ◌≡◌, ◌≤◌, ◌<◌, ◌+◌, ◌-◌, ◌^◌, ◌↔◌, ◌⊎◌, min, length, vec_len, vec_capacity, Some, None};
ghost use Rattle.std.specs.Io.{ReadsAtMost, WritesAtMost};
ghost use Rattle.std.specs.Io.KnownBytes.{ReadConsumes, WriteAppends};
ghost use Rattle.bp_io.specs.Causes.{HasCause};
ghost use Rattle.bp_io.specs.Streams.{TakesSome};
ghost use Rattle.bp_io.specs.Plans.{new_plan, FailsNext, FollowsPlan, after_call};

use crate::faults::CallPlan;
use crate::{Failed, Sink, Source};
use std::alloc::{AllocError, Global};

/// A source over bytes that never fails, and returns as many bytes as fit.
#[derive(Drop)]
pub struct FairSource<'a> {
    rest: &'a [u8],
}

impl<'a> FairSource<'a> {
    ghost use Rattle.bp_io.specs.Memory.{fair_left};

    /// Makes a source with all of these bytes left.
    pub fn new(bytes: &'a [u8]) -> Self
        ensures { fair_left result ≡ bytes.entry.now }
    {
        FairSource { rest: bytes }
    }
}

impl Source for FairSource<'_> {
    ghost use Rattle.bp_io.specs.Memory.{fair_left};

    ghost view = { λ s. record { left = Some (fair_left s); faults = 0 } };

    fn read(&mut self, into: &mut [u8]) -> Result<usize, Failed>
        ensures bound { ReadsAtMost result into.new }
        ensures bytes { ReadConsumes (Some (fair_left self.old)) (Some (fair_left self.new)) result into.new }
        ensures cause { HasCause 0 0 result }

        // A read returns as many bytes as it can.
        ensures count { IfOk result (λ n. n ≡ min (length into.new) (length (fair_left self.old))) }
    {
        let count = into.len().min(self.rest.len());
        let (prefix, back) = self.rest.split_at(count);
        into[..count].copy_from_slice(prefix);
        self.rest = back;
        Ok(count)
    }
}

/// A source over bytes that returns at most a fixed number of bytes in one read, and of which chosen calls fail.
#[derive(Drop)]
pub struct MemSource<'a> {
    rest: &'a [u8],
    most: usize,
    plan: CallPlan<'a>,
    ghost some: { 1 ≤ most },
}

impl<'a> MemSource<'a> {
    ghost use Rattle.bp_io.specs.Memory.{mem_left, source_most, source_plan, source_faults};

    /// Makes a source with all of these bytes left. A read returns at most `most` bytes, and the calls fail whose
    /// numbers are in `fail_at`; the first call has the number 0.
    pub fn new(bytes: &'a [u8], most: usize, fail_at: &'a [u64]) -> Self
        requires { 1 ≤ most }
        ensures left { mem_left result ≡ bytes.entry.now }
        ensures most { source_most result ≡ most }
        ensures plan { source_plan result ≡ new_plan fail_at.entry.now }
        ensures faults { source_faults result ≡ 0 }
    {
        MemSource {
            rest: bytes,
            most,
            plan: CallPlan::new(fail_at),
        }
    }
}

impl Source for MemSource<'_> {
    ghost use Rattle.bp_io.specs.Memory.{mem_left, source_most, source_plan, source_faults};

    ghost view = { λ s. record { left = Some (mem_left s); faults = source_faults s } };

    fn read(&mut self, into: &mut [u8]) -> Result<usize, Failed>
        ensures bound { ReadsAtMost result into.new }
        ensures bytes { ReadConsumes (Some (mem_left self.old)) (Some (mem_left self.new)) result into.new }
        ensures cause { HasCause (source_faults self.old) (source_faults self.new) result }

        // The calls that fail are those of the plan, and the others return as many bytes as they can.
        ensures plan { FollowsPlan (source_plan self.old) (source_plan self.new) result }
        ensures count { IfOk result (λ n.
            n ≡ min (min (length into.new) (length (mem_left self.old))) (source_most self.old)) }
        ensures most { source_most self.new ≡ source_most self.old }
    {
        self.plan.call()?;
        let count = into.len().min(self.rest.len()).min(self.most);
        let (prefix, back) = self.rest.split_at(count);
        into[..count].copy_from_slice(prefix);
        self.rest = back;
        Ok(count)
    }
}

/// A sink over memory of a fixed size, which takes as many bytes as fit, and of which chosen calls fail.
#[derive(Drop)]
pub struct MemSink<'a> {
    bytes: Vec<u8>,
    room: usize,
    plan: CallPlan<'a>,
    ghost fits: { vec_len bytes + room ≤ vec_capacity bytes },
}

impl<'a> MemSink<'a> {
    ghost use Rattle.bp_io.specs.Memory.{mem_taken, sink_room, sink_plan, sink_faults};

    /// Makes a sink with room for `room` bytes. The calls fail whose numbers are in `fail_at` (the first call has the
    /// number 0), and also each call with a piece that is not empty while no room is left.
    ///
    /// # Errors
    ///
    /// `AllocError`: out of memory.
    pub fn new(alloc: Global, room: usize, fail_at: &'a [u64]) -> Result<Self, AllocError>
        ensures taken { IfOk result (λ sink. mem_taken sink ≡ []) }
        ensures room { IfOk result (λ sink. sink_room sink ≡ room) }
        ensures plan { IfOk result (λ sink. sink_plan sink ≡ new_plan fail_at.entry.now) }
        ensures faults { IfOk result (λ sink. sink_faults sink ≡ 0) }
    {
        Ok(MemSink {
            bytes: Vec::with_capacity(alloc, room)?,
            room,
            plan: CallPlan::new(fail_at),
        })
    }

    /// Returns the bytes that the sink took.
    pub fn bytes(&self) -> &[u8]
        ensures { result.now ≡ mem_taken self.now }
    {
        &self.bytes
    }
}

impl Sink for MemSink<'_> {
    ghost use Rattle.bp_io.specs.Memory.{mem_taken, sink_room, sink_plan, sink_faults};

    ghost view = { λ s. record { taken = Some (mem_taken s); faults = sink_faults s } };

    fn write(&mut self, piece: &[u8]) -> Result<usize, Failed>
        ensures bound { WritesAtMost result piece.now }
        ensures some { TakesSome result piece.now }
        ensures bytes { WriteAppends (Some (mem_taken self.old)) (Some (mem_taken self.new)) result piece.now }
        ensures cause { HasCause (sink_faults self.old) (sink_faults self.new) result }

        // The calls that fail are those of the plan and those without room, and the others take as many bytes as they
        // can.
        ensures fails { IsErr result ↔
            (FailsNext (sink_plan self.old) ⊎ ((sink_room self.old ≡ 0) × (0 < length piece.now))) }
        ensures count { IfOk result (λ n. n ≡ min (sink_room self.old) (length piece.now)) }
        ensures room { IfOk result (λ n. sink_room self.new ≡ sink_room self.old - n) }
        ensures kept { OnErr result (sink_room self.new ≡ sink_room self.old) }
        ensures plan { sink_plan self.new ≡ after_call (sink_plan self.old) }
    {
        self.plan.call()?;
        let count = self.room.min(piece.len());
        if count == 0 && !piece.is_empty() {
            return Err(self.plan.fault());
        }
        match self.bytes.extend_from_slice(&piece[..count]) {
            Ok(()) => {
                self.room -= count;
                Ok(count)
            }
            Err(_) => unreachable!(),
        }
    }
}

/// A sink that never fails, takes each piece whole, and stores only the number of bytes.
#[derive(Default, Drop)]
pub struct NullSink {
    count: u64,
}

impl NullSink {
    ghost use Rattle.bp_io.specs.Memory.{null_count};

    /// Makes a sink that took no byte yet.
    pub fn new() -> Self
        ensures { null_count result ≡ 0 }
    {
        NullSink { count: 0 }
    }

    /// Returns the number of bytes that the sink took, up to `u64::MAX`, where the count stops.
    pub fn count(&self) -> u64
        ensures { result ≡ null_count self.now }
    {
        self.count
    }
}

impl Sink for NullSink {
    ghost use Rattle.bp_io.specs.Memory.{null_count};

    ghost view = { λ s. record { taken = None; faults = 0 } };

    fn write(&mut self, piece: &[u8]) -> Result<usize, Failed>
        ensures whole { result ≡ Ok (length piece.now) }
        ensures count { null_count self.new ≡ min (null_count self.old + length piece.now) (2 ^ 64 - 1) }
    {
        self.count = self.count.saturating_add(piece.len() as u64);
        Ok(piece.len())
    }
}
