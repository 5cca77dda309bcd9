//! Crashes all over a script: each image that a crash leaves is mounted, and compared with the slow program of the
//! abstract tree.

use crate::comparison::Comparison;
use crate::exchange::has_magic_b;
use crate::row::Row;
use crate::show::put_short;
use bp_io::{FairSource, MemFiles, MemSink, NullSink, Sink};
use bp_limits::{LOG_EVENTS, Version};
use bp_session::{Work, serve};
use bp_shell::open;
use bp_volume::Volume;
use pm_epochs::{Choice, EventKind};
use pm_raw::RawRegion;
use pm_region::Region;
use std::alloc::{AllocError, Global};

/// The event counts that are multiples of this number are tried, besides those next to barriers and end-of-call
/// markers.
const STRIDE: usize = 64;

/// The room for replies, in bytes.
const ROOM: usize = 65_536;

/// The greatest number of lines of a script.
const LINES: u64 = 65_536;

/// The stores of its epoch that a crash keeps.
#[derive(Clone, Copy)]
enum Mask {
    Empty,
    Whole,
    Odd,
    Even,
}

const MASKS: [Mask; 4] = [Mask::Empty, Mask::Whole, Mask::Odd, Mask::Even];

impl Mask {
    /// Whether it keeps the store at an index.
    fn has(self, place: usize) -> bool {
        match self {
            Mask::Empty => false,
            Mask::Whole => true,
            Mask::Odd => place % 2 == 1,
            Mask::Even => place % 2 == 0,
        }
    }
}

/// A script, the lines to ask after each crash, and the results of the crashes so far.
#[derive(Drop)]
struct Cuts<'a> {
    alloc: Global,
    version: Version,
    image: &'a [u8],
    /// Whether the image has the magic number `BPFSRS3B`.
    is_exchanged: bool,
    script: &'a str,
    asks: &'a str,
    /// How many of the first lines of the script are durable after it.
    durable: usize,
    /// Whether a step that clears words for an upgrade follows the script.
    clears: bool,
    work: Work,
    choice: Choice,
    /// The kind of each event of the log.
    events: Vec<EventKind>,
    /// The answers of the abstract tree after this number of calls, for each number.
    expected: Vec<String>,
    /// Whether some crash kept this number of calls, for each number.
    kept: Vec<bool>,
}

/// Crashes runs of a row's script over an image: at each event count next to a barrier or an end-of-call marker and
/// at every 64th, with each epoch, and none, all, the odd and the even stores of it. Writes which numbers of calls
/// survived, or else the first crash whose answers are not those of the abstract tree after the calls that it keeps.
pub fn cut_all_over(
    alloc: Global,
    row: &Row,
    image: &[u8],
    report: &mut String,
) -> Result<(), AllocError> {
    let mut cuts = Cuts::new(alloc, row, image)?;
    cuts.cut_all(report)
}

/// Whether crashes at an event count are tried.
fn is_tried(events: &[EventKind], moment: usize) -> bool {
    let before = match moment.checked_sub(1) {
        Some(last) => events.get(last),
        None => None,
    };
    moment % STRIDE == 0 || is_border(before) || is_border(events.get(moment))
}

/// Whether an event is a barrier or an end-of-call marker, or there is none.
fn is_border(event: Option<&EventKind>) -> bool {
    match event {
        Some(EventKind::Store(_)) => false,
        Some(EventKind::Barrier) => true,
        Some(EventKind::CallEnd) => true,
        None => true,
    }
}

/// Counts the stores of an epoch.
fn stores_of(events: &[EventKind], epoch: usize) -> usize {
    let mut barriers: usize = 0;
    let mut stores: usize = 0;
    for event in events {
        match event {
            EventKind::Store(_) => {
                if barriers == epoch {
                    stores = stores.saturating_add(1);
                }
            }
            EventKind::Barrier => barriers = barriers.saturating_add(1),
            EventKind::CallEnd => {}
        }
    }
    stores
}

fn barriers_of(events: &[EventKind]) -> usize {
    events
        .iter()
        .filter(|event| matches!(event, EventKind::Barrier))
        .count()
}

/// Counts the calls that end among events.
fn calls_of(events: &[EventKind]) -> usize {
    events
        .iter()
        .filter(|event| matches!(event, EventKind::CallEnd))
        .count()
}

/// Serves a script over an image, and returns the volume at the end; none if the image cannot be opened.
fn serve_over<K: Sink>(
    alloc: Global,
    work: &mut Work,
    image: &[u8],
    script: &str,
    out: &mut K,
) -> Result<Option<Volume<RawRegion>>, AllocError> {
    let mut files = MemFiles::new(alloc, Some(image), &[])?;
    Ok(serve_file(alloc, work, &mut files, script, out))
}

/// Serves a script over a file.
fn serve_file<K: Sink>(
    alloc: Global,
    work: &mut Work,
    files: &mut MemFiles<'_>,
    script: &str,
    out: &mut K,
) -> Option<Volume<RawRegion>> {
    match open::<Volume<RawRegion>, _>(alloc, "f", files) {
        Ok(mut volume) => {
            let mut source = FairSource::new(script.as_bytes());
            // If serving was broken off, the bytes that the sink took show it.
            let _ = serve(alloc, &mut volume, work, &mut source, out, files);
            Some(volume)
        }
        Err(_) => None,
    }
}

impl<'a> Cuts<'a> {
    /// Makes a record of no crash.
    fn new(alloc: Global, row: &'a Row, image: &'a [u8]) -> Result<Cuts<'a>, AllocError> {
        let choice = Choice::new(alloc, LOG_EVENTS)?;
        let work = Work::new(alloc)?;
        Ok(Cuts {
            alloc,
            version: row.version,
            image,
            is_exchanged: has_magic_b(image),
            script: row.script.as_str(),
            asks: row.asks.as_str(),
            durable: row.durable.min(LINES) as usize,
            clears: row.clears,
            work,
            choice,
            events: Vec::new(alloc),
            expected: Vec::new(alloc),
            kept: Vec::new(alloc),
        })
    }

    /// Runs the script, without its replies, and the step that clears words, if the row asks for one.
    fn run(&mut self) -> Result<Option<Volume<RawRegion>>, AllocError> {
        let mut sink = NullSink::new();
        let served = serve_over(
            self.alloc,
            &mut self.work,
            self.image,
            self.script,
            &mut sink,
        )?;
        match served {
            Some(mut volume) => {
                if self.clears {
                    // If it is refused, the log lacks its call, which is reported.
                    let _ = volume.clear_for_upgrade();
                }
                Ok(Some(volume))
            }
            None => Ok(None),
        }
    }

    /// Tries all crashes of a run of the script.
    fn cut_all(&mut self, report: &mut String) -> Result<(), AllocError> {
        if !self.read_log()? {
            return report.push_str("  the script can't be run, or has a line that is no call\n");
        }
        self.expect_all()?;
        if self.cut_at_all(report)? {
            self.finish(report)?;
        }
        Ok(())
    }

    /// Reads the log of a run of the script. Returns false if the script cannot be run, or has not a call for each
    /// line that is not durable: the calls that a crash keeps would not be its next lines then.
    fn read_log(&mut self) -> Result<bool, AllocError> {
        match self.run()? {
            Some(volume) => self.take_events(volume.region()),
            None => Ok(false),
        }
    }

    /// Copies the kinds of the events of a region's log. Returns whether they are of a call for each line that is not
    /// durable, and of the step that clears words.
    fn take_events<R: Region>(&mut self, region: &R) -> Result<bool, AllocError> {
        for i in 0..region.event_count() {
            self.events.push(region.kind(i))?;
        }
        let calls = calls_of(&self.events);
        self.kept = vec![in self.alloc; false; calls.saturating_add(1)]?;
        let lines = self
            .script
            .lines()
            .count()
            .saturating_add(usize::from(self.clears));
        Ok(calls.saturating_add(self.durable) == lines)
    }

    /// Tries the crashes at each event count that is tried. Returns false if one is wrong.
    fn cut_at_all(&mut self, report: &mut String) -> Result<bool, AllocError> {
        for moment in 0..self.events.len().saturating_add(1) {
            if is_tried(&self.events, moment) && !self.cut_at(moment, report)? {
                return Ok(false);
            }
        }
        Ok(true)
    }

    /// Tries the crashes at an event count. Returns false if one is wrong.
    fn cut_at(&mut self, moment: usize, report: &mut String) -> Result<bool, AllocError> {
        let barriers = barriers_of(self.events.get(..moment).unwrap_or(&[]));
        for epoch in 0..barriers.saturating_add(1) {
            if !self.cut_in(moment, epoch, report)? {
                return Ok(false);
            }
        }
        Ok(true)
    }

    /// Tries the crashes at an event count in an epoch. Returns false if one is wrong.
    fn cut_in(
        &mut self,
        moment: usize,
        epoch: usize,
        report: &mut String,
    ) -> Result<bool, AllocError> {
        for mask in MASKS {
            self.choose(moment, epoch, mask);
            if !self.cut(report)? {
                return Ok(false);
            }
        }
        Ok(true)
    }

    /// Chooses the stores that a crash keeps.
    fn choose(&mut self, moment: usize, epoch: usize, mask: Mask) {
        let stores = stores_of(self.events.get(..moment).unwrap_or(&[]), epoch);
        self.choice.start(moment, epoch);
        for place in 0..stores {
            if self.choice.mask().len() < self.choice.room() {
                self.choice.push(mask.has(place));
            }
        }
    }

    /// Crashes a run as chosen. Returns false if the image is not that of the abstract tree after the calls that
    /// survive.
    fn cut(&mut self, report: &mut String) -> Result<bool, AllocError> {
        match self.run()? {
            Some(mut volume) => self.crash(&mut volume, report),
            None => self.differ("the script can't be run", report),
        }
    }

    /// Crashes a volume after the script.
    fn crash<R: Region>(
        &mut self,
        volume: &mut Volume<R>,
        report: &mut String,
    ) -> Result<bool, AllocError> {
        match volume.crash(&self.choice) {
            Ok(kept) => {
                let left = bytes_of(self.alloc, volume.region())?;
                self.judge(&left, kept.c, report)
            }
            Err(_) => self.differ("the choice is refused", report),
        }
    }

    /// Compares the remaining bytes with the abstract tree after the calls that survive.
    fn judge(
        &mut self,
        left: &[u8],
        calls: usize,
        report: &mut String,
    ) -> Result<bool, AllocError> {
        if self.is_exchanged && !has_magic_b(left) {
            return self.differ("another magic number", report);
        }
        if !self.is_as_plain(left, calls)? {
            return self.differ("another tree", report);
        }
        if calls < self.kept.len() {
            self.kept[calls] = true;
        }
        Ok(true)
    }

    /// Whether the answers over the remaining bytes are those of the abstract tree after this number of calls.
    fn is_as_plain(&mut self, left: &[u8], calls: usize) -> Result<bool, AllocError> {
        let reported = self.asked(left)?;
        Ok(match self.expected.get(calls) {
            Some(expected) => reported.as_slice() == expected.as_bytes(),
            None => false,
        })
    }

    /// Returns the answers over the remaining bytes.
    fn asked(&mut self, left: &[u8]) -> Result<Vec<u8>, AllocError> {
        let mut sink = MemSink::new(self.alloc, ROOM, &[])?;
        if self.ask(left, &mut sink)? {
            Vec::from_slice(self.alloc, sink.bytes())
        } else {
            Vec::from_slice(self.alloc, b"not mounted")
        }
    }

    /// Asks the lines over the remaining bytes. Returns false if they cannot be opened.
    fn ask(&mut self, left: &[u8], sink: &mut MemSink<'_>) -> Result<bool, AllocError> {
        let volume = serve_over(self.alloc, &mut self.work, left, self.asks, sink)?;
        Ok(volume.is_some())
    }

    /// Asks the abstract tree after each number of calls.
    fn expect_all(&mut self) -> Result<(), AllocError> {
        for calls in 0..self.kept.len() {
            let answers = self.expected(calls)?;
            self.expected.push(answers)?;
        }
        Ok(())
    }

    /// Returns the answers of the abstract tree after the durable lines of the script and this number of calls.
    fn expected(&self, calls: usize) -> Result<String, AllocError> {
        let mut tree = Comparison::new(self.alloc, self.version, "")?;
        self.answers(calls.saturating_add(self.durable), &mut tree)
    }

    /// Returns the answers of an empty abstract tree after the first calls of the script.
    fn answers(&self, calls: usize, tree: &mut Comparison<'_>) -> Result<String, AllocError> {
        self.do_first(calls, tree)?;
        let mut reported = String::new(self.alloc);
        for line in self.asks.lines() {
            tree.answer(self.alloc, line, &mut reported)?;
        }
        Ok(reported)
    }

    /// Does the first calls of the script in the abstract tree.
    fn do_first(&self, calls: usize, tree: &mut Comparison<'_>) -> Result<(), AllocError> {
        let mut unused = String::new(self.alloc);
        for line in self.script.lines().take(calls) {
            tree.answer(self.alloc, line, &mut unused)?;
        }
        Ok(())
    }

    /// Writes why a crash is wrong.
    fn differ(&self, what: &str, report: &mut String) -> Result<bool, AllocError> {
        let moment = self.choice.moment();
        let epoch = self.choice.epoch();
        write!(report, "  {what} at moment {moment}")?;
        writeln!(report, ", epoch {epoch}")?;
        put_short(report, self.script)?;
        Ok(false)
    }

    /// Writes which numbers of calls survived.
    fn finish(&self, report: &mut String) -> Result<(), AllocError> {
        report.push_str("  each cut as the plain tree after the calls that it keeps:")?;
        for count in 0..self.kept.len() {
            if self.kept[count] {
                write!(report, " {count}")?;
            }
        }
        report.push_str("\n")
    }
}

/// Converts the words of a region to bytes.
fn bytes_of<R: Region>(alloc: Global, region: &R) -> Result<Vec<u8>, AllocError> {
    let mut bytes = Vec::new(alloc);
    for word in 0..region.words() {
        bytes.extend_from_slice(&region.load(word).to_le_bytes())?;
    }
    Ok(bytes)
}
