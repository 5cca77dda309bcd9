//! The lines of the input.

/// A device of a run.
#[derive(Clone, Copy)]
pub enum Device {
    Files,
    Sink,
    Source,
}

impl Device {
    fn named(name: &str) -> Option<Device> {
        match name {
            "files" => Some(Device::Files),
            "sink" => Some(Device::Sink),
            "source" => Some(Device::Source),
            _ => None,
        }
    }

    /// Returns the name of the device.
    pub fn name(self) -> &'static str {
        match self {
            Device::Files => "files",
            Device::Sink => "sink",
            Device::Source => "source",
        }
    }
}

/// The versions of the format in which a row runs.
#[derive(Clone, Copy)]
pub enum Versions {
    /// Version 1.
    First,
    /// Versions 2 and 3.
    Later,
    /// Version 3.
    Third,
    /// All versions.
    All,
    /// Versions 1 and 3.
    FirstAndThird,
}

impl Versions {
    fn named(text: &str) -> Option<Versions> {
        match text {
            "1" => Some(Versions::First),
            "2" => Some(Versions::Later),
            "3" => Some(Versions::Third),
            "1 2" => Some(Versions::All),
            "1 3" => Some(Versions::FirstAndThird),
            _ => None,
        }
    }
}

/// A line of the input. Numbers that are still text are read where they are used.
#[derive(Clone, Copy)]
pub enum InputLine<'a> {
    /// An empty line, or one that begins with `#`.
    Nothing,
    /// A row of this name begins: FILE is missing, the script is empty, and no device fails.
    Row(&'a str),
    /// The row runs in these versions, each over images of its own. Without such a line it runs in versions 1 and 3.
    Versions(Versions),
    /// FILE is a format of this number of blocks.
    Format(&'a str),
    /// FILE is this number of zero bytes.
    Zeros(u64),
    /// There is no FILE.
    Missing,
    /// The current contents of FILE are kept for later rows.
    Keep,
    /// FILE has the kept contents.
    Kept,
    /// Words of FILE, each an index and a value.
    Set(&'a str),
    /// All words of FILE from the first index up to the second have the value.
    Fill { from: u64, to: u64, value: u64 },
    /// The calls of a device that fail, by their numbers from 0.
    Fail(Device, &'a str),
    /// The source returns pieces of at most this number of bytes.
    Piece(u64),
    /// The arguments that are run.
    Words(&'a str),
    /// A line of the script.
    Script(&'a str),
    /// The last line of the script, without a newline.
    Part(&'a str),
    /// Runs the row.
    Go,
    /// Runs the row over a format of this number of blocks, and compares its replies with those of the slow program
    /// of the abstract tree.
    Plain(&'a str),
    /// A line that is asked after each crash.
    Ask(&'a str),
    /// Runs the row over a format of this number of blocks, or over FILE, repeatedly, each time with another crash after
    /// it.
    Cuts(&'a str),
    /// This number of the first lines of the script are durable after it.
    Durable(u64),
    /// The script is followed by a step that clears words for an upgrade to version 3.
    Clears,
    /// Serves lines and scripts by the parts of a session.
    Parts,
    /// Runs the row repeatedly, each time with another call of a device failing, from 0 up to a number of calls.
    Sweep(Device, u64),
}

/// Reads a number in decimal digits, or in hexadecimal ones after `0x`.
pub fn number(text: &str) -> Option<u64> {
    match text.strip_prefix("0x") {
        Some(digits) => u64::from_str_radix(digits, 16).ok(),
        None => text.parse::<u64>().ok(),
    }
}

fn fill(text: &str) -> Option<InputLine<'_>> {
    let mut words = text.split_whitespace();
    let from = number(words.next()?)?;
    let to = number(words.next()?)?;
    let value = number(words.next()?)?;
    Some(InputLine::Fill { from, to, value })
}

/// Reads a line, `None` if it has no such form.
pub fn read(line: &str) -> Option<InputLine<'_>> {
    let (word, rest) = line.split_once(' ').unwrap_or((line, ""));
    Some(match word {
        "" | "#" => InputLine::Nothing,
        "row" => InputLine::Row(rest),
        "versions" => InputLine::Versions(Versions::named(rest)?),
        "format" => InputLine::Format(rest),
        "zeros" => InputLine::Zeros(number(rest)?),
        "missing" => InputLine::Missing,
        "keep" => InputLine::Keep,
        "kept" => InputLine::Kept,
        "set" => InputLine::Set(rest),
        "fill" => fill(rest)?,
        "fail" => {
            let (device, numbers) = rest.split_once(' ')?;
            InputLine::Fail(Device::named(device)?, numbers)
        }
        "piece" => InputLine::Piece(number(rest)?),
        "words" => InputLine::Words(rest),
        ">" => InputLine::Script(rest),
        ">|" => InputLine::Part(rest),
        "go" => InputLine::Go,
        "plain" => InputLine::Plain(rest),
        "?" => InputLine::Ask(rest),
        "cuts" => InputLine::Cuts(rest),
        "durable" => InputLine::Durable(number(rest)?),
        "clears" => InputLine::Clears,
        "parts" => InputLine::Parts,
        "sweep" => {
            let (device, count) = rest.split_once(' ')?;
            InputLine::Sweep(Device::named(device)?, number(count)?)
        }
        _ => return None,
    })
}
