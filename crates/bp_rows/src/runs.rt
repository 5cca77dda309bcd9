//! Runs over the devices in memory.

use crate::exchange::{exchange, exchanged};
use crate::row::Row;
use bp_io::{FairSource, MemFiles, MemSink, MemSource, NullSink};
use bp_limits::Version;
use bp_shell::{Status, run};
use bp_volume::Volume;
use pm_raw::RawRegion;
use std::alloc::{AllocError, Global};

/// The room of the sink, in bytes.
const ROOM: usize = 4_194_304;

/// The results of a run.
#[derive(Drop)]
pub struct Ran {
    /// The exit status.
    pub status: u8,
    /// The bytes that the sink took.
    pub reported: Vec<u8>,
    /// FILE, if there is one.
    pub file: Option<Vec<u8>>,
}

fn image_of(alloc: Global, files: &MemFiles<'_>) -> Result<Option<Vec<u8>>, AllocError> {
    match files.image() {
        Some(bytes) => Ok(Some(Vec::from_slice(alloc, bytes)?)),
        None => Ok(None),
    }
}

/// Returns the arguments of a format of FILE with this number of blocks, in a version.
pub fn format_words(blocks: &str, version: Version) -> [&str; 7] {
    let number = match version {
        Version::One => "1",
        Version::Two => "2",
        Version::Three => "3",
    };
    [
        "bpfs",
        "format",
        "f",
        "--blocks",
        blocks,
        "--version",
        number,
    ]
}

/// Returns the bytes of a format of this number of blocks and of a version, `None` if the program refuses the number.
pub fn formatted(
    alloc: Global,
    blocks: &str,
    version: Version,
) -> Result<Option<Vec<u8>>, AllocError> {
    let mut files = MemFiles::new(alloc, None, &[])?;
    format_over(alloc, &format_words(blocks, version), &mut files)
}

/// Runs a format over these devices. Returns the bytes that it makes, `None` if it refuses.
fn format_over(
    alloc: Global,
    words: &[&str],
    files: &mut MemFiles<'_>,
) -> Result<Option<Vec<u8>>, AllocError> {
    let mut source = FairSource::new(b"");
    let mut sink = NullSink::new();
    match run::<Volume<RawRegion>, _, _, _>(alloc, words, &mut source, &mut sink, files) {
        Status::Done => image_of(alloc, files),
        _ => Ok(None),
    }
}

/// Returns the contents of these devices after a run.
fn left(
    alloc: Global,
    status: u8,
    sink: &MemSink<'_>,
    files: &MemFiles<'_>,
) -> Result<Ran, AllocError> {
    let reported = Vec::from_slice(alloc, sink.bytes())?;
    let file = image_of(alloc, files)?;
    Ok(Ran {
        status,
        reported,
        file,
    })
}

/// Runs the arguments of a row over its devices, of which the file is this one.
fn play_over(
    alloc: Global,
    row: &Row,
    words: &[&str],
    files: &mut MemFiles<'_>,
) -> Result<Ran, AllocError> {
    let failing = &row.failing;
    let mut source = MemSource::new(row.script.as_bytes(), row.piece.max(1), &failing.source);
    let mut sink = MemSink::new(alloc, ROOM, &failing.sink)?;
    let status = run::<Volume<RawRegion>, _, _, _>(alloc, words, &mut source, &mut sink, files);
    left(alloc, status.code(), &sink, files)
}

/// Runs these arguments over a row's devices, with this FILE.
fn play_words(
    alloc: Global,
    row: &Row,
    words: &[&str],
    file: Option<&[u8]>,
) -> Result<Ran, AllocError> {
    let mut files = MemFiles::new(alloc, file, &row.failing.files)?;
    play_over(alloc, row, words, &mut files)
}

/// Runs these arguments over FILE with the magic number `BPFSRS3B`, and exchanges it again after the run. A FILE without
/// a magic number of version 3 stays as it is, before and after.
fn play_exchanged(alloc: Global, row: &Row, words: &[&str]) -> Result<Ran, AllocError> {
    let Some(file) = exchanged(alloc, row.file.as_deref())? else {
        return play_words(alloc, row, words, row.file.as_deref());
    };
    let mut ran = play_words(alloc, row, words, Some(file.as_slice()))?;
    if let Some(left) = &mut ran.file {
        exchange(left);
    }
    Ok(ran)
}

/// Runs a row.
pub fn play(alloc: Global, row: &Row) -> Result<Ran, AllocError> {
    let words: Vec<&str> = row.words().split_whitespace().collect(alloc)?;
    if row.is_exchanged {
        play_exchanged(alloc, row, &words)
    } else {
        play_words(alloc, row, &words, row.file.as_deref())
    }
}
