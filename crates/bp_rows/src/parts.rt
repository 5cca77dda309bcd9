//! Calls that a caller has besides `run` over the whole of FILE: `run` over a file that never fails and a sink that
//! only counts, `open`, `serve` more than once over the same memory, and `serve_line`.

ghost use Rattle.bp_io.specs.Memory.{fair_view};
ghost use Rattle.bp_limits.specs.Limits.{log_events};
ghost use Rattle.bp_session.specs.Files.{CanSave};
ghost use Rattle.std.specs.Prelude.{◌≡◌, ◌≤◌};

use crate::exchange::exchanged;
use crate::row::Row;
use crate::runs::format_words;
use crate::stage::{serve_bytes, serve_script};
use bp_io::{FairFiles, FairSource, NullSink};
use bp_limits::MAX_LINE;
use bp_session::Work;
use bp_shell::{open, run};
use bp_volume::Volume;
use pm_raw::RawRegion;
use pm_region::Region;
use std::alloc::{AllocError, Global};

/// The length of a line that is too long.
const LONG: usize = MAX_LINE + 1;

/// Runs a program with no script, and writes its status, and the number of bytes that it printed.
fn count(
    alloc: Global,
    words: &[&str],
    files: &mut FairFiles,
    report: &mut String,
) -> Result<(), AllocError> {
    let mut source = FairSource::new(b"");
    let mut sink = NullSink::new();
    let status = run::<Volume<RawRegion>, _, _, _>(
        alloc,
        words,
        &mut source,
        &mut sink,
        files,
    ).code();
    let printed = sink.count();
    let length = files.image().len();
    write!(report, "status {status}, {printed} bytes printed")?;
    writeln!(report, ", {length} in the file")
}

/// Serves one script after another over the same memory. The last line of the first has no newline, and is not part
/// of the next.
fn serve_scripts<R: Region>(
    alloc: Global,
    volume: &mut Volume<R>,
    work: &mut Work,
    files: &mut FairFiles,
    report: &mut String,
) -> Result<(), AllocError>
    requires ready { CanSave volume.old.base (fair_view files.old) }
    requires roomy { volume.old.capacity ≤ log_events }
    ensures ready { CanSave volume.new.base (fair_view files.new) }
    ensures capacity { volume.new.capacity ≡ volume.old.capacity }
{
    serve_script(alloc, volume, work, files, "create /a\nstat /", report)?;
    serve_script(alloc, volume, work, files, "list /\nsync\n", report)?;
    serve_script(alloc, volume, work, files, "", report)
}

/// Serves one line after another over the same memory, of which one has the greatest length, and one is too long.
fn serve_lines<R: Region>(
    alloc: Global,
    volume: &mut Volume<R>,
    work: &mut Work,
    files: &mut FairFiles,
    report: &mut String,
) -> Result<(), AllocError>
    requires ready { CanSave volume.old.base (fair_view files.old) }
    requires roomy { volume.old.capacity ≤ log_events }
{
    let long = vec![in alloc; b'x'; LONG]?;
    serve_bytes(alloc, volume, work, files, b"stat /a", report)?;
    serve_bytes(alloc, volume, work, files, b"", report)?;
    serve_bytes(alloc, volume, work, files, &long[1..], report)?;
    serve_bytes(alloc, volume, work, files, &long, report)?;
    serve_script(alloc, volume, work, files, "space\n", report)
}

/// Serves scripts and lines over a volume, with one memory for all.
fn serve_over<R: Region>(
    alloc: Global,
    volume: &mut Volume<R>,
    files: &mut FairFiles,
    report: &mut String,
) -> Result<(), AllocError>
    requires ready { CanSave volume.old.base (fair_view files.old) }
    requires roomy { volume.old.capacity ≤ log_events }
{
    let mut work = Work::new(alloc)?;
    serve_with(alloc, volume, &mut work, files, report)
}

/// Serves scripts and lines over a volume, in this memory.
fn serve_with<R: Region>(
    alloc: Global,
    volume: &mut Volume<R>,
    work: &mut Work,
    files: &mut FairFiles,
    report: &mut String,
) -> Result<(), AllocError>
    requires ready { CanSave volume.old.base (fair_view files.old) }
    requires roomy { volume.old.capacity ≤ log_events }
{
    serve_scripts(alloc, volume, work, files, report)?;
    serve_lines(alloc, volume, work, files, report)
}

/// Opens a file, and serves scripts and lines over it.
fn serve_file(alloc: Global, files: &mut FairFiles, report: &mut String) -> Result<(), AllocError> {
    match open::<Volume<RawRegion>, _>(alloc, "f", files) {
        Ok(mut volume) => serve_over(alloc, &mut volume, files, report),
        Err(_) => report.push_str("not opened\n"),
    }
}

/// Formats a file of the version of a row, and writes the result. Returns a file with these bytes, under the magic number
/// `BPFSRS3B` if the row asks for it.
fn new_file(alloc: Global, row: &Row, report: &mut String) -> Result<FairFiles, AllocError> {
    let mut files = FairFiles::new(alloc, &[])?;
    count(alloc, &format_words("8", row.version), &mut files, report)?;
    if row.is_exchanged
        && let Some(bytes) = exchanged(alloc, Some(files.image()))?
    {
        return FairFiles::new(alloc, &bytes);
    }
    Ok(files)
}

/// Formats and checks a file, and between serves lines and scripts over it. Writes the result of each.
pub fn serve_parts(alloc: Global, row: &Row, report: &mut String) -> Result<(), AllocError> {
    let mut files = new_file(alloc, row, report)?;
    serve_file(alloc, &mut files, report)?;
    count(alloc, &["bpfs", "check", "f"], &mut files, report)
}
