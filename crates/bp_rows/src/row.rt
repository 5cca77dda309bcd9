//! A row in one version: FILE, the script, the arguments, and the calls that fail.

use crate::image::set_word;
use crate::line::{Device, InputLine, number};
use crate::runs::formatted;
use crate::script::expand;
use bp_limits::{BLOCK_SIZE, MAX_FILE_BLOCKS, Version};
use std::alloc::{AllocError, Global};

/// The greatest number of zero bytes of FILE: one block more than an image has.
const MOST_ZEROS: u64 = (MAX_FILE_BLOCKS as u64 + 1) * BLOCK_SIZE;

/// The greatest number of bytes of a piece of the source, unless a row gives another.
const PIECE: usize = 65_536;

/// The numbers of the calls that fail, device by device.
#[derive(Drop)]
pub struct Failing {
    /// Those of the files.
    pub files: Vec<u64>,
    /// Those of the sink.
    pub sink: Vec<u64>,
    /// Those of the source.
    pub source: Vec<u64>,
}

impl Failing {
    /// Makes a record in which no call fails.
    pub fn none(alloc: Global) -> Failing {
        Failing {
            files: Vec::new(alloc),
            sink: Vec::new(alloc),
            source: Vec::new(alloc),
        }
    }

    /// Adds a call of a device that fails.
    pub fn add(&mut self, device: Device, call: u64) -> Result<(), AllocError> {
        match device {
            Device::Files => self.files.push(call)?,
            Device::Sink => self.sink.push(call)?,
            Device::Source => self.source.push(call)?,
        }
        Ok(())
    }
}

/// A row: FILE, the script, the arguments, and the calls that fail.
#[derive(Drop)]
pub struct Row {
    /// The version of the formats that are made for the row, and of the abstract tree compared with it.
    pub version: Version,
    /// Whether the program gets FILE with the magic number `BPFSRS3B`, if it has a magic number of version 3.
    pub is_exchanged: bool,
    /// FILE, if there is one.
    pub file: Option<Vec<u8>>,
    /// The arguments that are run, if a line gives them.
    words: Option<String>,
    /// The script, with its copies expanded.
    pub script: String,
    /// The lines that are asked after each crash.
    pub asks: String,
    /// How many of the first lines of the script are durable after it.
    pub durable: u64,
    /// Whether a step that clears words for an upgrade to version 3 follows the script.
    pub clears: bool,
    /// The greatest number of bytes of a piece of the source.
    pub piece: usize,
    /// The calls of the devices that fail.
    pub failing: Failing,
}

/// Adds a line, with its copies expanded. Returns false if it has no such form.
fn add_line(text: &str, script: &mut String) -> Result<bool, AllocError> {
    let is_whole = expand(text, script)?;
    script.push_str("\n")?;
    Ok(is_whole)
}

impl Row {
    /// Makes a row with `run` over a missing file and no script, in which no call fails.
    pub fn new(alloc: Global, version: Version, is_exchanged: bool) -> Row {
        Row {
            version,
            is_exchanged,
            file: None,
            words: None,
            script: String::new(alloc),
            asks: String::new(alloc),
            durable: 0,
            clears: false,
            piece: PIECE,
            failing: Failing::none(alloc),
        }
    }

    /// Begins the next run of the row: over the contents of FILE, with an empty script.
    pub fn go_on(&mut self, alloc: Global, file: Option<Vec<u8>>) {
        *self = Row::new(alloc, self.version, self.is_exchanged);
        self.file = file;
    }

    /// Returns the arguments that are run.
    pub fn words(&self) -> &str {
        match &self.words {
            Some(words) => words.as_str(),
            None => "bpfs run f",
        }
    }

    /// Sets what a line gives. Returns false if that is impossible.
    pub fn set(&mut self, alloc: Global, line: InputLine<'_>) -> Result<bool, AllocError> {
        match line {
            InputLine::Format(blocks) => {
                self.file = formatted(alloc, blocks, self.version)?;
                return Ok(self.file.is_some());
            }
            InputLine::Zeros(count) => return self.set_zeros(alloc, count),
            InputLine::Missing => self.file = None,
            InputLine::Set(pairs) => return Ok(self.set_words(pairs)),
            InputLine::Fill { from, to, value } => return Ok(self.fill(from, to, value)),
            InputLine::Fail(device, calls) => return self.fail(device, calls),
            InputLine::Piece(most) => self.piece = most.min(PIECE as u64) as usize,
            InputLine::Words(words) => self.words = Some(String::from_str(alloc, words)?),
            InputLine::Script(text) => return add_line(text, &mut self.script),
            InputLine::Part(text) => return expand(text, &mut self.script),
            InputLine::Ask(text) => return add_line(text, &mut self.asks),
            InputLine::Durable(count) => self.durable = count,
            InputLine::Clears => self.clears = true,
            _ => {}
        }
        Ok(true)
    }

    fn set_zeros(&mut self, alloc: Global, count: u64) -> Result<bool, AllocError> {
        if count > MOST_ZEROS {
            return Ok(false);
        }
        self.file = Some(vec![in alloc; 0u8; count as usize]?);
        Ok(true)
    }

    fn set_word(&mut self, place: u64, value: u64) -> bool {
        match &mut self.file {
            Some(bytes) => set_word(bytes, place, value),
            None => false,
        }
    }

    fn set_words(&mut self, pairs: &str) -> bool {
        let mut place = None;
        for text in pairs.split_whitespace() {
            let Some(number) = number(text) else {
                return false;
            };
            match place {
                None => place = Some(number),
                Some(at) => {
                    if !self.set_word(at, number) {
                        return false;
                    }
                    place = None;
                }
            }
        }
        place.is_none()
    }

    fn fill(&mut self, from: u64, to: u64, value: u64) -> bool {
        for place in from..to {
            if !self.set_word(place, value) {
                return false;
            }
        }
        true
    }

    fn fail(&mut self, device: Device, calls: &str) -> Result<bool, AllocError> {
        for text in calls.split_whitespace() {
            let Some(call) = number(text) else {
                return Ok(false);
            };
            self.failing.add(device, call)?;
        }
        Ok(true)
    }
}
