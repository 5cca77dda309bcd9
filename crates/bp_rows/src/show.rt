//! The report of a run.

use crate::image::word_at;
use crate::runs::Ran;
use std::alloc::AllocError;

/// The greatest number of words of FILE that are written.
const MOST_WORDS: usize = 16;

/// The length of the longest reply that is written whole.
const MOST_REPLY: usize = 120;

/// Writes the replies, the status, and the contents of FILE compared with those before.
pub fn show(report: &mut String, before: Option<&[u8]>, ran: &Ran) -> Result<(), AllocError> {
    show_replies(report, &ran.reported)?;
    let status = ran.status;
    writeln!(report, "status {status}")?;
    match &ran.file {
        None => report.push_str("file missing\n"),
        Some(bytes) => show_file(report, before, bytes),
    }
}

fn show_replies(report: &mut String, reported: &[u8]) -> Result<(), AllocError> {
    let Ok(text) = str::from_utf8(reported) else {
        return report.push_str("replies that are no text\n");
    };
    for line in text.lines() {
        report.push_str("  ")?;
        put_short(report, line)?;
    }
    if !text.is_empty() && !text.ends_with('\n') {
        report.push_str("  without a newline\n")?;
    }
    Ok(())
}

/// Writes a line, and of a long one the beginning.
pub fn put_short(report: &mut String, line: &str) -> Result<(), AllocError> {
    let length = line.len();
    if length <= MOST_REPLY {
        writeln!(report, "{line}")
    } else {
        let prefix = line.get(..MOST_REPLY).unwrap_or("");
        writeln!(report, "{prefix}.. {length} bytes")
    }
}

/// Counts the words that differ.
pub fn changed_words(before: &[u8], after: &[u8]) -> usize {
    (0..after.len() / 8)
        .filter(|place| word_at(after, *place) != word_at(before, *place))
        .count()
}

fn show_word(report: &mut String, place: usize, value: u64) -> Result<(), AllocError> {
    writeln!(report, "  {place} {value:#x}")
}

fn show_file(report: &mut String, before: Option<&[u8]>, after: &[u8]) -> Result<(), AllocError> {
    let old = before.unwrap_or(&[]);
    if before.is_some() && old == after {
        return report.push_str("file same\n");
    }
    let length = after.len();
    writeln!(report, "file {length} bytes")?;
    let mut left = MOST_WORDS;
    for place in 0..length / 8 {
        let value = word_at(after, place);
        if value != word_at(old, place) && left > 0 {
            show_word(report, place, value)?;
            left -= 1;
        }
    }
    let more = changed_words(old, after).saturating_sub(MOST_WORDS);
    if more > 0 {
        writeln!(report, "  and {more} more")?;
    }
    Ok(())
}

/// Writes a run of a sweep on one line: its status, the number of lines that it printed, and the number of words of
/// FILE that changed.
pub fn show_short(report: &mut String, before: Option<&[u8]>, ran: &Ran) -> Result<(), AllocError> {
    let status = ran.status;
    let lines = ran.reported.iter().filter(|byte| **byte == b'\n').count();
    write!(report, "status {status}, lines {lines}, ")?;
    match &ran.file {
        None => report.push_str("file missing\n"),
        Some(bytes) => show_change(report, before, bytes),
    }
}

/// Writes the number of words of FILE that changed.
fn show_change(report: &mut String, before: Option<&[u8]>, after: &[u8]) -> Result<(), AllocError> {
    let old = before.unwrap_or(&[]);
    if before.is_some() && old == after {
        return report.push_str("file same\n");
    }
    let length = after.len();
    let words = changed_words(old, after);
    writeln!(report, "file {length} bytes, words changed {words}")
}
