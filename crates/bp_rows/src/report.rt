//! The report of a call.

use bp_session::Broken;
use std::alloc::AllocError;

/// Writes the printed bytes, with two blanks before each line, and whether all was served.
pub fn write_report(
    report: &mut String,
    reported: &[u8],
    served: Result<(), Broken>,
) -> Result<(), AllocError> {
    match str::from_utf8(reported) {
        Ok(text) => {
            for line in text.lines() {
                report.push_str("  ")?;
                report.push_str(line)?;
                report.push_str("\n")?;
            }
        }
        Err(_) => report.push_str("  no text\n")?,
    }
    match served {
        Ok(()) => report.push_str("served\n"),
        Err(broken) => writeln!(report, "broken off: {broken:?}"),
    }
}
