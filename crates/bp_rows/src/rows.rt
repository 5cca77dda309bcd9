//! Rows, line by line, and the report of their runs.

use crate::line::{InputLine, Versions, read};
use crate::side::{Side, refuse};
use bp_limits::Version;
use std::alloc::{AllocError, Global};

/// The row that is being read, in each version of the format, and in version 3 under its other magic number too.
#[derive(Drop)]
struct Rows {
    alloc: Global,
    versions: Versions,
    first: Side,
    second: Side,
    third: Side,
    exchanged: Side,
}

/// Does what each line of a text asks, and writes the results.
pub fn run_rows(alloc: Global, text: &str, report: &mut String) -> Result<(), AllocError> {
    let mut rows = Rows::new(alloc);
    rows.take_all(text, report)
}

impl Rows {
    /// Makes the state before the first row.
    fn new(alloc: Global) -> Rows {
        Rows {
            alloc,
            versions: Versions::FirstAndThird,
            first: Side::new(alloc, Version::One, false),
            second: Side::new(alloc, Version::Two, false),
            third: Side::new(alloc, Version::Three, false),
            exchanged: Side::new(alloc, Version::Three, true),
        }
    }

    fn take_all(&mut self, text: &str, report: &mut String) -> Result<(), AllocError> {
        for line in text.lines() {
            self.take(line, report)?;
        }
        Ok(())
    }

    /// Does what a line asks. A line that is not part of a row is reported, and the next one is read.
    fn take(&mut self, text: &str, report: &mut String) -> Result<(), AllocError> {
        let Some(line) = read(text) else {
            return refuse(text, report);
        };
        match line {
            InputLine::Row(name) => self.begin(name, report),
            InputLine::Versions(versions) => {
                self.versions = versions;
                Ok(())
            }
            _ => self.take_in_versions(text, line, report),
        }
    }

    fn begin(&mut self, name: &str, report: &mut String) -> Result<(), AllocError> {
        self.versions = Versions::FirstAndThird;
        self.first.begin();
        self.second.begin();
        self.third.begin();
        self.exchanged.begin();
        writeln!(report, "== {name}")
    }

    /// Does what a line asks in the versions of the row. A result that is the same in two versions is written once.
    fn take_in_versions(
        &mut self,
        text: &str,
        line: InputLine<'_>,
        report: &mut String,
    ) -> Result<(), AllocError> {
        match self.versions {
            Versions::First => self.first.take(text, line, report),
            Versions::Later => self.take_in_later(text, line, report),
            Versions::Third => self.take_in_third(text, line, report),
            Versions::All => self.take_in_all(text, line, report),
            Versions::FirstAndThird => self.take_in_first_and_third(text, line, report),
        }
    }

    fn take_in_later(
        &mut self,
        text: &str,
        line: InputLine<'_>,
        report: &mut String,
    ) -> Result<(), AllocError> {
        let mut second = String::new(self.alloc);
        self.second.take(text, line, &mut second)?;
        report.push_str(second.as_str())?;
        self.compare_third(text, line, second.as_str(), report)
    }

    fn take_in_third(
        &mut self,
        text: &str,
        line: InputLine<'_>,
        report: &mut String,
    ) -> Result<(), AllocError> {
        let mut third = String::new(self.alloc);
        self.third.take(text, line, &mut third)?;
        report.push_str(third.as_str())?;
        self.compare_exchanged(text, line, third.as_str(), report)
    }

    fn take_in_all(
        &mut self,
        text: &str,
        line: InputLine<'_>,
        report: &mut String,
    ) -> Result<(), AllocError> {
        let mut first = String::new(self.alloc);
        self.first.take(text, line, &mut first)?;
        let mut second = String::new(self.alloc);
        self.second.take(text, line, &mut second)?;
        report_both(first.as_str(), second.as_str(), report)?;
        self.compare_third(text, line, second.as_str(), report)
    }

    fn take_in_first_and_third(
        &mut self,
        text: &str,
        line: InputLine<'_>,
        report: &mut String,
    ) -> Result<(), AllocError> {
        let mut first = String::new(self.alloc);
        self.first.take(text, line, &mut first)?;
        report.push_str(first.as_str())?;
        self.compare_third(text, line, first.as_str(), report)
    }

    /// Does what a line asks in version 3, and writes the result if it is not that in an earlier version.
    fn compare_third(
        &mut self,
        text: &str,
        line: InputLine<'_>,
        earlier: &str,
        report: &mut String,
    ) -> Result<(), AllocError> {
        let mut third = String::new(self.alloc);
        self.third.take(text, line, &mut third)?;
        if third.as_str() != earlier {
            report.push_str("version 3\n")?;
            report.push_str(third.as_str())?;
        }
        self.compare_exchanged(text, line, third.as_str(), report)
    }

    /// Does what a line asks under the other magic number of version 3, and writes the result if it is not that under
    /// the first one.
    fn compare_exchanged(
        &mut self,
        text: &str,
        line: InputLine<'_>,
        third: &str,
        report: &mut String,
    ) -> Result<(), AllocError> {
        let mut exchanged = String::new(self.alloc);
        self.exchanged.take(text, line, &mut exchanged)?;
        if exchanged.as_str() != third {
            report.push_str("version 3 under BPFSRS3B\n")?;
            report.push_str(exchanged.as_str())?;
        }
        Ok(())
    }
}

/// Writes the results of a line in version 1 and in version 2.
fn report_both(first: &str, second: &str, report: &mut String) -> Result<(), AllocError> {
    report.push_str(first)?;
    if first != second {
        report.push_str("version 2\n")?;
        report.push_str(second)
    } else if second.is_empty() {
        Ok(())
    } else {
        report.push_str("version 2 alike\n")
    }
}
