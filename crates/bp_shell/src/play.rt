//! The program `play`.

ghost use Rattle.bp_io.specs.Views.{Known};
ghost use Rattle.bp_limits.specs.Limits.{log_events, max_turns};
ghost use Rattle.bp_shell.specs.Answering.{EndsUnread};
ghost use Rattle.bp_shell.specs.Opening.{FromAnyFile, OnlyReads};
ghost use Rattle.bp_shell.specs.Playing.{EndsPlay, PlayOutcome, PlaysFile, play_text, spaced, summary_text, tree_text};
ghost use Rattle.bp_shell.specs.Stops.{HasStopCause, IsReason};
ghost use Rattle.std.specs.Prelude.{◌≡◌, ◌≤◌, ◌++◌, ℕ, IfErr, IfOk, OnOk};

use crate::image_file::open_to_read;
use crate::output::report_stop;
use crate::status::Status;
use crate::stop::Stop;
use bp_fs::StoredFileSystem;
use bp_io::{Failed, Files, Sink};
use bp_layout::Totals;
use bp_mount::Mount;
use bp_play::{PlayBuffers, Summary, play_on};
use bp_replies::send::send;
use pm_raw::RawRegion;
use std::alloc::{AllocError, Global};

/// The outcome of a play.
#[derive(Clone, Copy)]
struct Played {
    summary: Summary,
    totals: Totals,
    free: u32,
}

/// Plays over a file system, and counts its totals and free blocks at the end.
fn play_over<V: StoredFileSystem>(
    alloc: Global,
    system: &mut V,
    seed: u64,
    count: u32,
) -> Result<Played, AllocError>
    requires few { count ≤ max_turns }
    requires roomy { (V.memory system.old).capacity ≤ log_events }
    ensures { IfOk result (λ played. EndsPlay (V.memory system.old) seed count played.summary played.totals played.free) }
{
    let mut buffers = PlayBuffers::new(alloc)?;
    let summary = play_on(alloc, system, &mut buffers, seed, count);
    let totals = system.totals();
    let space = system.space();
    Ok(Played {
        summary,
        totals,
        free: space.free,
    })
}

/// Writes numbers, each after a space.
fn write_spaced(text: &mut String, numbers: &[u64]) -> Result<(), AllocError>
    ensures { OnOk result (text.new.bytes.items ≡ text.old.bytes.items ++ spaced numbers.now) }
{
    for number in numbers {
        write!(text, " {number}")?;
    }
    Ok(())
}

/// Writes the lines of a summary.
fn write_summary(text: &mut String, count: u32, summary: &Summary) -> Result<(), AllocError>
    ensures { OnOk result (text.new.bytes.items ≡ text.old.bytes.items ++ summary_text count summary.now) }
{
    write!(text, "turns {count}\nok {}\nrefused", summary.ok)?;
    write_spaced(text, &summary.refused)?;
    write!(
        text,
        "\ncrashes {} kept {} of {}\n",
        summary.crashes, summary.kept, summary.of
    )
}

/// Writes the line with the totals of the tree.
fn write_tree(text: &mut String, totals: &Totals, free: u32) -> Result<(), AllocError>
    ensures { OnOk result (text.new.bytes.items ≡ text.old.bytes.items ++ tree_text totals.now free) }
{
    write!(
        text,
        "tree {} {} {}",
        totals.files, totals.dirs, totals.bytes
    )?;
    write!(text, " space {free} {}\n", totals.live)
}

/// Makes the five lines of a play.
fn text_of(alloc: Global, count: u32, played: &Played) -> Result<String, AllocError>
    ensures { IfOk result (λ text. text.bytes.items ≡
        play_text count played.now.summary played.now.totals played.now.free) }
{
    let mut text = String::new(alloc);
    write_summary(&mut text, count, &played.summary)?;
    write_tree(&mut text, &played.totals, played.free)?;
    Ok(text)
}

/// Plays over a file system, and returns the five lines that report it.
fn report_play<V: StoredFileSystem>(
    alloc: Global,
    system: &mut V,
    seed: u64,
    count: u32,
) -> Result<String, Stop>
    requires few { count ≤ max_turns }
    requires roomy { (V.memory system.old).capacity ≤ log_events }
    ensures plays { FromAnyFile (V.memory system.old)
        (λ known. IfOk result (λ text. PlaysFile known seed count text.bytes.items)) }
    ensures reason { (known : Known) → IfErr result (IsReason known) }
    ensures cause { (faults : ℕ) → HasStopCause faults faults result }
{
    let played = match play_over(alloc, system, seed, count) {
        Ok(played) => played,
        Err(_) => return Err(Stop::Memory),
    };
    match text_of(alloc, count, &played) {
        Ok(text) => Ok(text),
        Err(_) => Err(Stop::Memory),
    }
}

/// Plays over the file of a name, in memory only, and returns the five lines that report it.
fn perform<M: Mount<Region = RawRegion> + Drop, F: Files>(
    alloc: Global,
    name: &str,
    seed: u64,
    count: u32,
    files: &mut F,
) -> Result<String, Stop>
    requires { count ≤ max_turns }
    ensures plays { IfOk result (λ text. PlaysFile ((F.view files.old).contents name.now) seed count text.bytes.items) }
    ensures reason { IfErr result (IsReason ((F.view files.old).contents name.now)) }
    ensures cause { HasStopCause (F.view files.old).faults (F.view files.new).faults result }
    ensures reads { OnlyReads name.now (F.view files.old) (F.view files.new) }
    ensures flushed { (F.view files.new).is_flushed ≡ (F.view files.old).is_flushed }
{
    let mut system = open_to_read::<M, F>(alloc, name, files)?;
    report_play(alloc, &mut system, seed, count)
}

/// Plays `count` operations over the file of a name, which is only read: changes are made in memory, and dropped. The
/// status is `Done` if the sink took the five lines, `Missing` if the file does not exist, else `SinkFailed`,
/// `FilesFailed`, `Refused` or `Memory`.
pub(crate) fn play_file<M: Mount<Region = RawRegion> + Drop, K: Sink, F: Files>(
    alloc: Global,
    name: &str,
    seed: u64,
    count: u32,
    out: &mut K,
    files: &mut F,
) -> Status
    requires { count ≤ max_turns }
    // Whatever bytes a source has left.
    ensures outcome { EndsUnread (PlayOutcome result seed count) name.now
        (K.view out.old) (F.view files.old) (K.view out.new) (F.view files.new) }
    ensures reads { OnlyReads name.now (F.view files.old) (F.view files.new) }
{
    let text = match perform::<M, F>(alloc, name, seed, count, files) {
        Ok(text) => text,
        Err(stop) => return report_stop(stop, out),
    };
    match send(out, text.as_bytes()) {
        Ok(()) => Status::Done,
        Err(Failed) => Status::SinkFailed,
    }
}
