//! Serving the lines of a source, in whatever pieces it is read, each with its reply to a sink.

ghost use Rattle.memchr.specs.Find.{IsFirst, Nowhere, Passes, is_byte};
ghost use Rattle.std.specs.Prelude.{◌≡◌, ◌≤◌, [], Err, OnOk, length, slice_range, true, vec_len};
ghost use Rattle.std.specs.Io.{ReadsAtMost};
ghost use Rattle.std.specs.Io.KnownBytes.{ReadConsumes};
ghost use Rattle.bp_io.specs.Causes.{HasCause};
ghost use Rattle.bp_script.specs.Commands.Command.{sync};
ghost use Rattle.bp_script.specs.Commands.{command_of};
ghost use Rattle.bp_session.specs.Files.{CanSave};
ghost use Rattle.bp_session.specs.Lines.{EndsNoLine};
ghost use Rattle.bp_session.specs.Held.{EndsHeld, GathersHeld, ServesAlone, ServesAtOnce, ServesBy, ServesGathered, ServesHeld, TakesPiece};
ghost use Rattle.bp_session.specs.Pieces.{piece_size};
ghost use Rattle.bp_session.specs.Serving.{CanServe, ServesAgain};
ghost use Rattle.bp_session.specs.declared.broken.Broken.TheVariants as cause;
ghost use Rattle.bp_session.specs.Work.{held_line, held_replies, read_piece};

use crate::actions::act_and_save;
use crate::broken::Broken;
use crate::replies::write_by;
use crate::save::DirtyBlocks;
use crate::work::Work;
use bp_fs::FileSystem;
use bp_io::{Failed, Files, Sink, Source};
use bp_limits::MAX_INPUT;
use bp_replies::GATHERED;
use memchr::memchr;
use pm_region::Region;
use std::alloc::Global;

/// Serves the line that is held. If more than `most` bytes of replies wait then, they go to the sink.
fn answer_line<V: FileSystem, K: Sink, F: Files>(
    alloc: Global,
    system: &mut V,
    work: &mut Work,
    most: usize,
    dirty: &mut [bool],
    out: &mut K,
    files: &mut F,
) -> Result<(), Broken>
    requires { CanServe (V.behaviour.memory (V.state system.old)) (F.view files.old) }
    ensures outcome { GathersHeld V.behaviour result F.view K.view
        work.old dirty.old (V.state system.old) files.old out.old
        work.new dirty.new (V.state system.new) files.new out.new }
    ensures few { OnOk result (length (held_replies work.new) ≤ most) }
    ensures synced { held_replies work.old ≡ [] → ¬ (result ≡ Err cause.Files) → command_of (held_line work.old) ≡ sync →
        (F.view files.new).is_flushed ≡ true }
    ensures ready { CanSave (V.behaviour.memory (V.state system.new)).base (F.view files.new) }
    ensures line { held_line work.new ≡ held_line work.old }
    ensures piece { read_piece work.new ≡ read_piece work.old }
{
    let Work { buffers, .. } = work;
    let outcome = act_and_save(alloc, system, buffers, dirty, out, files)?;
    match write_by(outcome, &buffers.reply, &mut buffers.replies, most, out) {
        Ok(()) => Ok(()),
        Err(Failed) => Err(Broken::Sink),
    }
}

/// Serves the line that is held, and passes its reply to the sink.
fn answer_alone<V: FileSystem, K: Sink, F: Files>(
    alloc: Global,
    system: &mut V,
    work: &mut Work,
    dirty: &mut [bool],
    out: &mut K,
    files: &mut F,
) -> Result<(), Broken>
    requires { CanServe (V.behaviour.memory (V.state system.old)) (F.view files.old) }
    ensures outcome { ServesAlone V.behaviour result F.view K.view work.old
        dirty.old (V.state system.old) files.old out.old
        dirty.new (V.state system.new) files.new out.new }
    ensures synced { ¬ (result ≡ Err cause.Files) → command_of (held_line work.old) ≡ sync → (F.view files.new).is_flushed ≡ true }
    ensures again { ServesAgain (V.behaviour.memory (V.state system.old)) (V.behaviour.memory (V.state system.new)) (F.view files.new) }
    ensures line { held_line work.new ≡ held_line work.old }
    ensures piece { read_piece work.new ≡ read_piece work.old }
{
    work.buffers.replies.clear();
    answer_line(alloc, system, work, 0, dirty, out, files)
}

/// Serves the line that the work holds, and passes its reply to the sink. The sink breaks it off if it does not take
/// the reply whole, or the files if a sync cannot save. A file has to be attached that has the file system's blocks and
/// may be written; its contents are not read.
pub fn serve_line<V: FileSystem, K: Sink, F: Files>(
    alloc: Global,
    system: &mut V,
    work: &mut Work,
    out: &mut K,
    files: &mut F,
) -> Result<(), Broken>
    requires { CanServe (V.behaviour.memory (V.state system.old)) (F.view files.old) }
    ensures outcome { ServesHeld V.behaviour result F.view K.view work.old
        (V.state system.old) files.old out.old
        (V.state system.new) files.new out.new }
    ensures synced { ¬ (result ≡ Err cause.Files) → command_of (held_line work.old) ≡ sync → (F.view files.new).is_flushed ≡ true }
    ensures again { ServesAgain (V.behaviour.memory (V.state system.old)) (V.behaviour.memory (V.state system.new)) (F.view files.new) }
    ensures line { held_line work.new ≡ held_line work.old }
    ensures piece { read_piece work.new ≡ read_piece work.old }
{
    answer_alone(alloc, system, work, &mut [], out, files)
}

/// Serves the line that a newline ends, and begins the next. If more than `most` bytes of replies wait then, they go
/// to the sink.
fn end_line<V: FileSystem, K: Sink, F: Files>(
    alloc: Global,
    system: &mut V,
    work: &mut Work,
    most: usize,
    dirty: &mut [bool],
    out: &mut K,
    files: &mut F,
) -> Result<(), Broken>
    requires { CanServe (V.behaviour.memory (V.state system.old)) (F.view files.old) }
    ensures outcome { GathersHeld V.behaviour result F.view K.view
        work.old dirty.old (V.state system.old) files.old out.old
        work.new dirty.new (V.state system.new) files.new out.new }
    ensures few { OnOk result (length (held_replies work.new) ≤ most) }
    ensures ready { CanSave (V.behaviour.memory (V.state system.new)).base (F.view files.new) }
    ensures line { held_line work.new ≡ [] }
    ensures piece { read_piece work.new ≡ read_piece work.old }
{
    let served = answer_line(alloc, system, work, most, dirty, out, files);
    work.buffers.line.clear();
    served
}

/// Adds bytes of the piece that have no newline to the line.
fn take_run(work: &mut Work, from: usize, to: usize)
    requires order { from ≤ to }
    requires inside { to ≤ piece_size }
    requires quiet { Nowhere (Passes (is_byte 10) (read_piece work.old)) from to }
    ensures same { EndsNoLine (held_line work.old) (slice_range (read_piece work.old) from to) (held_line work.new) }
    ensures piece { read_piece work.new ≡ read_piece work.old }
    ensures replies { held_replies work.new ≡ held_replies work.old }
{
    let Work { buffers, piece, .. } = work;
    buffers.add(&piece[from..to]);
}

/// Finds the first newline in the bytes from one index up to another.
fn newline_in(bytes: &[u8], from: usize, to: usize) -> Option<usize>
    requires order { from ≤ to }
    requires inside { to ≤ length bytes.now }
    ensures { IsFirst (Passes (is_byte 10) bytes.now) from to result }
{
    match memchr(b'\n', &bytes[from..to]) {
        Some(i) => Some(from + i),
        None => None,
    }
}

/// Serves the lines of the first `count` bytes of the piece that was read.
fn take_piece<V: FileSystem, K: Sink, F: Files>(
    alloc: Global,
    system: &mut V,
    work: &mut Work,
    count: usize,
    most: usize,
    dirty: &mut [bool],
    out: &mut K,
    files: &mut F,
) -> Result<(), Broken>
    requires serves { CanServe (V.behaviour.memory (V.state system.old)) (F.view files.old) }
    requires inside { count ≤ piece_size }
    ensures outcome { TakesPiece V.behaviour result most count F.view K.view
        work.old dirty.old (V.state system.old) files.old out.old
        work.new dirty.new (V.state system.new) files.new out.new }
    ensures again { ServesAgain (V.behaviour.memory (V.state system.old)) (V.behaviour.memory (V.state system.new)) (F.view files.new) }
{
    let mut at: usize = 0;
    work.buffers.replies.clear();
    while let Some(end) = newline_in(&work.piece, at, count) {
        take_run(work, at, end);
        end_line(alloc, system, work, most, dirty, out, files)?;
        at = end + 1;
    }
    take_run(work, at, count);
    match work.buffers.replies.hand_over(out) {
        Ok(()) => Ok(()),
        Err(Failed) => Err(Broken::Sink),
    }
}

/// Serves a line that ends the input.
fn finish<V: FileSystem, K: Sink, F: Files>(
    alloc: Global,
    system: &mut V,
    work: &mut Work,
    dirty: &mut [bool],
    out: &mut K,
    files: &mut F,
) -> Result<(), Broken>
    requires { CanServe (V.behaviour.memory (V.state system.old)) (F.view files.old) }
    ensures { EndsHeld V.behaviour result F.view K.view work.old
        dirty.old (V.state system.old) files.old out.old
        dirty.new (V.state system.new) files.new out.new }
{
    if work.buffers.line.is_empty() {
        return Ok(());
    }
    answer_alone(alloc, system, work, dirty, out, files)
}

/// Reads a piece of the input.
fn fill<S: Source>(src: &mut S, piece: &mut Vec<u8>) -> Result<usize, Failed>
    ensures len { vec_len piece.new ≡ vec_len piece.old }
    ensures bound { ReadsAtMost result piece.new.items }
    ensures bytes { ReadConsumes (S.view src.old).left (S.view src.new).left result piece.new.items }
    ensures cause { HasCause (S.view src.old).faults (S.view src.new).faults result }
{
    src.read(piece)
}

/// Answers each line of a source. Replies of at most `most` bytes wait while more lines of the same piece follow.
fn serve_by<V: FileSystem, S: Source, K: Sink, F: Files>(
    alloc: Global,
    system: &mut V,
    work: &mut Work,
    most: usize,
    dirty: &mut [bool],
    src: &mut S,
    out: &mut K,
    files: &mut F,
) -> Result<(), Broken>
    requires { CanServe (V.behaviour.memory (V.state system.old)) (F.view files.old) }
    ensures outcome { ServesBy V.behaviour result most S.view F.view K.view
        src.old dirty.old (V.state system.old) files.old out.old
        src.new dirty.new (V.state system.new) files.new out.new }
    ensures again { ServesAgain (V.behaviour.memory (V.state system.old)) (V.behaviour.memory (V.state system.new)) (F.view files.new) }
{
    work.buffers.line.clear();
    let mut taken: usize = 0;
    loop {
        let count = match fill(src, &mut work.piece) {
            Ok(count) => count,
            Err(Failed) => return Err(Broken::Source),
        };
        if count == 0 {
            break;
        }
        let served = count.min(MAX_INPUT as usize - taken);
        take_piece(alloc, system, work, served, most, dirty, out, files)?;
        if served < count {
            return Err(Broken::LongInput);
        }
        taken += count;
    }
    finish(alloc, system, work, dirty, out, files)
}

/// Answers each line of a source, in whatever pieces it is read, up to its end, or to the first cause that breaks it
/// off. A line that the work held before is not served. Each reply goes to the sink before the next line is served.
pub fn serve<V: FileSystem, S: Source, K: Sink, F: Files>(
    alloc: Global,
    system: &mut V,
    work: &mut Work,
    src: &mut S,
    out: &mut K,
    files: &mut F,
) -> Result<(), Broken>
    requires { CanServe (V.behaviour.memory (V.state system.old)) (F.view files.old) }
    ensures outcome { ServesAtOnce V.behaviour result S.view F.view K.view
        src.old (V.state system.old) files.old out.old
        src.new (V.state system.new) files.new out.new }
    ensures again { ServesAgain (V.behaviour.memory (V.state system.old)) (V.behaviour.memory (V.state system.new)) (F.view files.new) }
{
    serve_by(alloc, system, work, 0, &mut [], src, out, files)
}

/// Answers each line of a source, as `serve` does, but gathers replies while more lines of one read follow. They go
/// to the sink before the next read, before a sync, and at the end. If the sink failed, the file system may be ahead of
/// the line whose reply was broken off, by later lines of which none is a sync; no file is ahead.
///
/// A sync writes the dirty blocks, which may lack words of the last drain, and those to which a store went since, as
/// `sync_and_save` does. The caller passes the dirty blocks (none, if the file was just read), and gets them at the
/// end.
pub fn serve_gathered<V: FileSystem, S: Source, K: Sink, F: Files>(
    alloc: Global,
    system: &mut V,
    work: &mut Work,
    dirty: &mut DirtyBlocks,
    src: &mut S,
    out: &mut K,
    files: &mut F,
) -> Result<(), Broken>
    requires { CanServe (V.behaviour.memory (V.state system.old)) (F.view files.old) }
    ensures outcome { ServesGathered V.behaviour result S.view F.view K.view
        src.old dirty.old (V.state system.old) files.old out.old
        src.new dirty.new (V.state system.new) files.new out.new }
    ensures again { ServesAgain (V.behaviour.memory (V.state system.old)) (V.behaviour.memory (V.state system.new)) (F.view files.new) }
{
    let count = dirty.count.min(dirty.flags.len());
    serve_by(
        alloc,
        system,
        work,
        GATHERED,
        &mut dirty.flags[..count],
        src,
        out,
        files,
    )
}
