//! A volume over a file, and the memory to serve it.

ghost use Rattle.bp_io.specs.Memory.{fair_view};
ghost use Rattle.bp_limits.specs.Limits.{log_events};
ghost use Rattle.bp_session.specs.Files.{CanSave};
ghost use Rattle.std.specs.Prelude.{◌≡◌, ◌≤◌};

use crate::report::write_report;
use bp_io::{FairFiles, FairSource, MemSink};
use bp_session::{Work, serve, serve_line};
use bp_volume::Volume;
use pm_region::Region;
use std::alloc::{AllocError, Global};

/// The room of a sink, in bytes.
const ROOM: usize = 4096;

/// Serves a script, and writes its replies and whether all was served.
pub fn serve_script<R: Region>(
    alloc: Global,
    volume: &mut Volume<R>,
    work: &mut Work,
    files: &mut FairFiles,
    script: &str,
    report: &mut String,
) -> Result<(), AllocError>
    requires ready { CanSave volume.old.base (fair_view files.old) }
    requires roomy { volume.old.capacity ≤ log_events }
    ensures ready { CanSave volume.new.base (fair_view files.new) }
    ensures capacity { volume.new.capacity ≡ volume.old.capacity }
{
    let mut source = FairSource::new(script.as_bytes());
    let mut sink = MemSink::new(alloc, ROOM, &[])?;
    let served = serve(alloc, volume, work, &mut source, &mut sink, files);
    write_report(report, sink.bytes(), served)
}

/// Sets the line and serves it, and writes its length, its reply and whether it was served.
pub fn serve_bytes<R: Region>(
    alloc: Global,
    volume: &mut Volume<R>,
    work: &mut Work,
    files: &mut FairFiles,
    line: &[u8],
    report: &mut String,
) -> Result<(), AllocError>
    requires ready { CanSave volume.old.base (fair_view files.old) }
    requires roomy { volume.old.capacity ≤ log_events }
    ensures ready { CanSave volume.new.base (fair_view files.new) }
    ensures capacity { volume.new.capacity ≡ volume.old.capacity }
{
    work.set_line(line);
    report_line(work, report)?;
    let mut sink = MemSink::new(alloc, ROOM, &[])?;
    let served = serve_line(alloc, volume, work, &mut sink, files);
    write_report(report, sink.bytes(), served)
}

fn report_line(work: &Work, report: &mut String) -> Result<(), AllocError> {
    match work.line() {
        Some(line) => {
            let length = line.len();
            writeln!(report, "a line of {length} bytes")
        }
        None => report.push_str("a line that is too long\n"),
    }
}
