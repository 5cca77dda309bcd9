//! A row in one version of the format, under one magic number.

use crate::comparison::compare;
use crate::crashes::cut_all_over;
use crate::exchange::exchange;
use crate::line::{Device, InputLine};
use crate::parts::serve_parts;
use crate::row::{Failing, Row};
use crate::runs::{formatted, play};
use crate::show::{show, show_short};
use bp_limits::Version;
use std::alloc::{AllocError, Global};

/// The row that is being read, in one version, and the image of that version that is kept for later rows.
#[derive(Drop)]
pub struct Side {
    alloc: Global,
    row: Row,
    kept: Option<Vec<u8>>,
}

fn copy_of(alloc: Global, file: &Option<Vec<u8>>) -> Result<Option<Vec<u8>>, AllocError> {
    match file {
        Some(bytes) => Ok(Some(Vec::from_slice(alloc, bytes)?)),
        None => Ok(None),
    }
}

/// Reports a line that is not part of a row.
pub fn refuse(text: &str, report: &mut String) -> Result<(), AllocError> {
    writeln!(report, "bad row: {text}")
}

impl Side {
    /// Makes the state before the first row, with no image.
    pub fn new(alloc: Global, version: Version, is_exchanged: bool) -> Side {
        Side {
            alloc,
            row: Row::new(alloc, version, is_exchanged),
            kept: None,
        }
    }

    /// Begins a row.
    pub fn begin(&mut self) {
        self.row = Row::new(self.alloc, self.row.version, self.row.is_exchanged);
    }

    /// Does what a line of the row asks, and writes the result.
    pub fn take(
        &mut self,
        text: &str,
        line: InputLine<'_>,
        report: &mut String,
    ) -> Result<(), AllocError> {
        match line {
            InputLine::Keep => {
                self.kept = copy_of(self.alloc, &self.row.file)?;
                Ok(())
            }
            InputLine::Kept => {
                self.row.file = copy_of(self.alloc, &self.kept)?;
                Ok(())
            }
            InputLine::Go => self.go(report),
            InputLine::Plain(blocks) => self.plain(text, blocks, report),
            InputLine::Cuts(blocks) => self.cut(text, blocks, report),
            InputLine::Sweep(device, count) => self.sweep(device, count, report),
            InputLine::Parts => serve_parts(self.alloc, &self.row, report),
            _ => {
                if self.row.set(self.alloc, line)? {
                    Ok(())
                } else {
                    refuse(text, report)
                }
            }
        }
    }

    fn go(&mut self, report: &mut String) -> Result<(), AllocError> {
        let ran = play(self.alloc, &self.row)?;
        show(report, self.row.file.as_deref(), &ran)?;
        self.row.go_on(self.alloc, ran.file);
        Ok(())
    }

    fn plain(&mut self, text: &str, blocks: &str, report: &mut String) -> Result<(), AllocError> {
        self.row.file = formatted(self.alloc, blocks, self.row.version)?;
        if self.row.file.is_none() {
            return refuse(text, report);
        }
        let ran = play(self.alloc, &self.row)?;
        self.compare_reported(&ran.reported, report)?;
        self.row.go_on(self.alloc, ran.file);
        Ok(())
    }

    /// Compares the replies to the script with those of the abstract tree.
    fn compare_reported(&self, reported: &[u8], report: &mut String) -> Result<(), AllocError> {
        let reported = str::from_utf8(reported).unwrap_or("");
        let script = self.row.script.as_str();
        compare(self.alloc, self.row.version, script, reported, report)
    }

    fn cut(&mut self, text: &str, blocks: &str, report: &mut String) -> Result<(), AllocError> {
        let image = match blocks {
            "file" => copy_of(self.alloc, &self.row.file)?,
            _ => formatted(self.alloc, blocks, self.row.version)?,
        };
        match image {
            Some(mut image) => {
                if self.row.is_exchanged {
                    exchange(&mut image);
                }
                cut_all_over(self.alloc, &self.row, &image, report)
            }
            None => refuse(text, report),
        }
    }

    fn sweep(&mut self, device: Device, count: u64, report: &mut String) -> Result<(), AllocError> {
        for call in 0..count {
            self.row.failing = Failing::none(self.alloc);
            self.row.failing.add(device, call)?;
            write_call(report, device, call)?;
            self.go_short(report)?;
        }
        self.row.failing = Failing::none(self.alloc);
        Ok(())
    }

    /// Runs the row, and writes the result on one line. The row is kept.
    fn go_short(&self, report: &mut String) -> Result<(), AllocError> {
        let ran = play(self.alloc, &self.row)?;
        show_short(report, self.row.file.as_deref(), &ran)
    }
}

/// Writes which call of a device fails.
fn write_call(report: &mut String, device: Device, call: u64) -> Result<(), AllocError> {
    let name = device.name();
    write!(report, "  {name} {call}: ")
}
