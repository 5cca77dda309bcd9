//! The devices over real files and streams. Rows run over the devices in memory, whose contracts say what each call
//! returns (docs/rows.md).

ghost use Rattle.std.specs.Prelude.{◌<◌, ◌≡◌, List, ℕ, true};

use crate::same::same;
use bp_disk::{DiskFiles, StdSink, StdSource};
use bp_io::{Access, Failed, Files, Sink, Source};
use std::alloc::{AllocError, Global};
use std::fs::File;
use std::io::{ErrorKind, Read, Write};
use std::process::Abort;
use std::{fs, io, rt};

/// Checks the bytes at these offsets of a file.
fn has_bytes(rt: &impl Abort, bytes: &[u8], wanted: &[(usize, u8)]) {
    for (at, want) in wanted {
        same(rt, (*at, bytes.get(*at)), (*at, Some(want)));
    }
}

#[test]
fn disk_files_keep_blocks(rt: HostRuntime) {
    let mut files = DiskFiles::new(rt.alloc(), &rt).expect(&rt, "there is memory");
    same(&rt, files.attach("disk.img", Access::Write), Ok(None));
    same(&rt, files.attach("disk.img", Access::Make), Ok(Some(0)));
    same(&rt, files.set_blocks(8), Ok(()));
    let block = [77u8; 4096];
    same(&rt, files.write_block(3, &block), Ok(()));
    same(&rt, files.flush(), Ok(()));
    let bytes = fs::read(&rt, "disk.img").expect(&rt, "it is there");
    same(&rt, bytes.len(), 32_768);
    let wanted = [(12_287, 0), (12_288, 77), (16_383, 77), (16_384, 0)];
    has_bytes(&rt, &bytes, &wanted);
    fs::remove_file(&rt, "disk.img").expect(&rt, "it is removed");
}

/// Writes a block in which all bytes are equal.
fn fill_block<F: Files>(files: &mut F, i: u32, byte: u8) -> Result<(), Failed>
    requires inside { i < (F.view files.old).blocks }
    requires may_write { (F.view files.old).may_write ≡ true }
    ensures blocks { (F.view files.new).blocks ≡ (F.view files.old).blocks }
    ensures may_write { (F.view files.new).may_write ≡ true }
    ensures attached { (name : List ℕ) → (F.view files.new).is_attached name ≡ (F.view files.old).is_attached name }
{
    files.write_block(i, &[byte; 4096])
}

/// Whether all bytes of a block are this one.
fn is_filled<F: Files>(files: &mut F, i: u32, byte: u8) -> Result<bool, Failed>
    requires inside { i < (F.view files.old).blocks }
    ensures blocks { (F.view files.new).blocks ≡ (F.view files.old).blocks }
    ensures may_write { (F.view files.new).may_write ≡ (F.view files.old).may_write }
    ensures attached { (name : List ℕ) → (F.view files.new).is_attached name ≡ (F.view files.old).is_attached name }
{
    let mut read = [1u8; 4096];
    files.read_blocks(i, &mut read)?;
    Ok(read == [byte; 4096])
}

/// Makes a file of 8 blocks, and writes one of them. Returns whether the file did not exist.
fn make_short<F: Files>(files: &mut F) -> Result<bool, Failed> {
    if files.attach("short.img", Access::Make)? != Some(0) {
        return Ok(false);
    }
    files.set_blocks(8)?;
    fill_block(files, 3, 77)?;
    files.flush()?;
    Ok(true)
}

/// Whether the file of 8 blocks has the written block, and zeros in the next one.
fn reads_short<F: Files>(files: &mut F) -> Result<bool, Failed> {
    if files.attach("short.img", Access::Write)? != Some(32_768) {
        return Ok(false);
    }
    Ok(is_filled(files, 3, 77)? && is_filled(files, 4, 0)?)
}

/// Shortens the file of 8 blocks. Returns whether it had them.
fn cut_short<F: Files>(files: &mut F) -> Result<bool, Failed> {
    if files.attach("short.img", Access::Write)? != Some(32_768) {
        return Ok(false);
    }
    files.set_blocks(2)?;
    files.flush()?;
    Ok(true)
}

/// Whether nobody else can attach a file.
fn is_locked<F: Files>(files: &mut F, name: &str) -> bool {
    for access in [Access::Read, Access::Write, Access::Make] {
        if files.attach(name, access) != Err(Failed) {
            return false;
        }
    }
    true
}

#[test]
fn disk_files_are_locked(rt: HostRuntime) {
    let mut files = DiskFiles::new(rt.alloc(), &rt).expect(&rt, "there is memory");
    same(&rt, make_short(&mut files), Ok(true));
    let mut again = DiskFiles::new(rt.alloc(), &rt).expect(&rt, "there is memory");
    assert!(rt; is_locked(&mut again, "short.img"));
    drop(files);
    same(&rt, reads_short(&mut again), Ok(true));
    same(&rt, cut_short(&mut again), Ok(true));
    same(
        &rt,
        fs::read(&rt, "short.img").expect(&rt, "it is there").len(),
        8192,
    );
    fs::remove_file(&rt, "short.img").expect(&rt, "it is removed");
}

#[test]
fn disk_files_are_read(rt: HostRuntime) {
    fs::write(&rt, "read.img", [5u8; 8192].as_slice()).expect(&rt, "it is written");
    let mut files = DiskFiles::new(rt.alloc(), &rt).expect(&rt, "there is memory");
    assert!(rt; files.attach("read.img", Access::Write) == Ok(Some(8192)));
    same(&rt, is_filled(&mut files, 1, 5), Ok(true));
    fs::remove_file(&rt, "read.img").expect(&rt, "it is removed");
}

#[test]
fn disk_files_change_at_the_flush(rt: HostRuntime) {
    fs::write(&rt, "whole.img", [5u8; 8192].as_slice()).expect(&rt, "it is written");
    let mut files = DiskFiles::new(rt.alloc(), &rt).expect(&rt, "there is memory");
    same(&rt, files.attach("whole.img", Access::Make), Ok(Some(8192)));
    same(&rt, files.set_blocks(3), Ok(()));
    let block = [6u8; 4096];
    same(&rt, files.write_block(1, &block), Ok(()));
    let before = fs::read(&rt, "whole.img").expect(&rt, "it is there");
    same(&rt, before.len(), 8192);
    // It is flushed before it is detached.
    same(
        &rt,
        files.attach("whole.img", Access::Read),
        Ok(Some(12_288)),
    );
    let bytes = fs::read(&rt, "whole.img").expect(&rt, "it is there");
    has_bytes(&rt, &bytes, &[(4095, 5), (4096, 6), (8191, 6), (8192, 0)]);
    fs::remove_file(&rt, "whole.img").expect(&rt, "it is removed");
}

#[test]
fn disk_files_are_replaced(rt: HostRuntime) {
    fs::write(&rt, "front.img", [5u8; 12_288].as_slice()).expect(&rt, "it is written");
    let mut files = DiskFiles::new(rt.alloc(), &rt).expect(&rt, "there is memory");
    same(
        &rt,
        files.attach("front.img", Access::Write),
        Ok(Some(12_288)),
    );
    let block = [6u8; 4096];
    same(&rt, files.replace(&block, 8), Ok(()));
    same(&rt, files.write_block(5, &block), Ok(()));
    let before = fs::read(&rt, "front.img").expect(&rt, "it is there");
    same(&rt, before.len(), 12_288);
    same(&rt, files.flush(), Ok(()));
    let bytes = fs::read(&rt, "front.img").expect(&rt, "it is there");
    same(&rt, bytes.len(), 32_768);
    let prefix = [(0, 6), (4095, 6), (4096, 0), (12_287, 0)];
    has_bytes(&rt, &bytes, &prefix);
    has_bytes(&rt, &bytes, &[(20_480, 6), (24_576, 0)]);
    fs::remove_file(&rt, "front.img").expect(&rt, "it is removed");
}

/// Returns the byte that fills block `i` of the long file.
fn long_byte(i: u8) -> u8 {
    match i {
        0 => 77,
        2 => 78,
        4 => 79,
        131..200 => 0,
        _ => i,
    }
}

/// Writes the first blocks of the long file in order, with their first contents.
fn write_row<F: Files>(files: &mut F) -> Result<(), Failed>
    requires blocks { (F.view files.old).blocks ≡ 201 }
    requires may_write { (F.view files.old).may_write ≡ true }
    ensures blocks { (F.view files.new).blocks ≡ 201 }
    ensures may_write { (F.view files.new).may_write ≡ true }
    ensures attached { (name : List ℕ) → (F.view files.new).is_attached name ≡ (F.view files.old).is_attached name }
{
    for i in 0..131u8 {
        fill_block(files, u32::from(i), i)?;
    }
    Ok(())
}

/// Whether these are the bytes of the long file.
fn is_long(bytes: &[u8]) -> bool {
    for i in 0..201u8 {
        let at = 4096 * i as usize;
        if bytes.get(at..at + 4096) != Some([long_byte(i); 4096].as_slice()) {
            return false;
        }
    }
    true
}

/// Whether the blocks of a file are those of the long file: one that is read by itself, and a run of many.
fn reads_long<F: Files>(alloc: Global, files: &mut F) -> Result<bool, AllocError>
    requires { (F.view files.old).blocks ≡ 201 }
{
    let mut read = vec![in alloc; 1u8; 823_296]?;
    let (alone, run) = read.split_at_mut(4096);
    if files.read_blocks(1, run).is_err() || files.read_blocks(0, alone).is_err() {
        return Ok(false);
    }
    Ok(is_long(&read))
}

/// Writes blocks of the long file over those of the run: one far past it, one that is then read, and two more.
/// Returns whether the block that was read had the written bytes.
fn write_over<F: Files>(files: &mut F) -> Result<bool, Failed>
    requires blocks { (F.view files.old).blocks ≡ 201 }
    requires may_write { (F.view files.old).may_write ≡ true }
    ensures may_write { (F.view files.new).may_write ≡ true }
    ensures attached { (name : List ℕ) → (F.view files.new).is_attached name ≡ (F.view files.old).is_attached name }
{
    fill_block(files, 200, 200)?;
    fill_block(files, 0, 77)?;
    let is_read = is_filled(files, 0, 77)?;
    fill_block(files, 2, 78)?;
    fill_block(files, 4, 79)?;
    Ok(is_read)
}

/// Makes the long file. Returns whether it did not exist, and whether a block was read as it was written.
fn make_long<F: Files>(files: &mut F) -> Result<bool, Failed> {
    if files.attach("long.img", Access::Make)? != Some(0) {
        return Ok(false);
    }
    files.set_blocks(201)?;
    write_row(files)?;
    let is_read = write_over(files)?;
    files.flush()?;
    Ok(is_read)
}

/// Whether the long file exists.
fn keeps_long<F: Files>(alloc: Global, files: &mut F) -> Result<bool, AllocError> {
    if files.attach("long.img", Access::Read) != Ok(Some(823_296)) {
        return Ok(false);
    }
    reads_long(alloc, files)
}

#[test]
fn disk_files_keep_many_blocks(rt: HostRuntime) {
    let mut files = DiskFiles::new(rt.alloc(), &rt).expect(&rt, "there is memory");
    same(&rt, make_long(&mut files), Ok(true));
    assert!(rt; is_long(&fs::read(&rt, "long.img").expect(&rt, "it is there")));
    drop(files);
    let mut again = DiskFiles::new(rt.alloc(), &rt).expect(&rt, "there is memory");
    assert!(rt; keeps_long(rt.alloc(), &mut again).expect(&rt, "there is memory"));
    fs::remove_file(&rt, "long.img").expect(&rt, "it is removed");
}

#[test]
fn disk_files_report_faults(rt: HostRuntime) {
    for (name, access) in [
        ("no/such/disk.img", Access::Make),
        (".", Access::Read),
        ("/dev/null", Access::Write),
        ("/dev/full", Access::Make),
    ] {
        let mut files = DiskFiles::new(rt.alloc(), &rt).expect(&rt, "there is memory");
        same(&rt, (name, files.attach(name, access)), (name, Err(Failed)));
    }
}

#[test]
fn disk_files_miss_a_lost_block(rt: HostRuntime) {
    fs::write(&rt, "lost.img", [5u8; 8192].as_slice()).expect(&rt, "it is written");
    let mut files = DiskFiles::new(rt.alloc(), &rt).expect(&rt, "there is memory");
    let length = files.attach("lost.img", Access::Read);
    fs::write(&rt, "lost.img", [5u8; 5000].as_slice()).expect(&rt, "it is written");
    fs::remove_file(&rt, "lost.img").expect(&rt, "it is removed");
    assert!(rt; length == Ok(Some(8192)));
    let mut read = [0u8; 4096];
    same(&rt, files.read_blocks(1, &mut read), Err(Failed));
}

#[test]
fn disk_files_keep_off_a_file_cut_short(rt: HostRuntime) {
    fs::write(&rt, "cut.img", [5u8; 8192].as_slice()).expect(&rt, "it is written");
    let mut files = DiskFiles::new(rt.alloc(), &rt).expect(&rt, "there is memory");
    same(&rt, files.attach("cut.img", Access::Write), Ok(Some(8192)));
    fs::write(&rt, "cut.img", [6u8; 5000].as_slice()).expect(&rt, "it is written");
    same(&rt, fill_block(&mut files, 0, 7), Err(Failed));
    let bytes = fs::read(&rt, "cut.img").expect(&rt, "it is there");
    same(&rt, bytes.len(), 5000);
    has_bytes(&rt, &bytes, &[(0, 6), (4095, 6), (4999, 6)]);
    fs::remove_file(&rt, "cut.img").expect(&rt, "it is removed");
}

/// Flushes a file of two blocks, and again when another program made it longer. Returns whether that is a fault.
fn flush_made_longer<R: rt::Files<File = File>, F: Files>(
    runtime: &R,
    files: &mut F,
) -> Result<bool, Failed> {
    if files.attach("longer.img", Access::Write)? != Some(8192) {
        return Ok(false);
    }
    files.flush()?;
    let is_longer = fs::write(runtime, "longer.img", [6u8; 8193].as_slice()).is_ok();
    Ok(is_longer && files.flush().is_err())
}

#[test]
fn disk_files_flush_no_file_made_longer(rt: HostRuntime) {
    fs::write(&rt, "longer.img", [5u8; 8192].as_slice()).expect(&rt, "it is written");
    let mut files = DiskFiles::new(rt.alloc(), &rt).expect(&rt, "there is memory");
    same(&rt, flush_made_longer(&rt, &mut files), Ok(true));
    fs::remove_file(&rt, "longer.img").expect(&rt, "it is removed");
}

/// A stream whose first calls a signal interrupts; then it reads and writes one byte at a time.
#[derive(Drop)]
struct Interrupted {
    signals: u32,
}

impl Interrupted {
    fn signal(&mut self) -> io::Result<()> {
        if self.signals == 0 {
            return Ok(());
        }
        self.signals -= 1;
        Err(ErrorKind::Interrupted.into())
    }
}

impl Read for Interrupted {
    fn read(&mut self, into: &mut [u8]) -> io::Result<usize> {
        match (self.signal(), into.first_mut()) {
            (Err(e), _) => Err(e),
            (Ok(()), None) => Ok(0),
            (Ok(()), Some(first)) => {
                *first = 7;
                Ok(1)
            }
        }
    }
}

impl Write for Interrupted {
    fn write(&mut self, piece: &[u8]) -> io::Result<usize> {
        match self.signal() {
            Ok(()) => Ok(piece.len().min(1)),
            Err(e) => Err(e),
        }
    }

    fn flush(&mut self) -> io::Result<()> {
        Ok(())
    }
}

/// A stream that accepts no byte.
#[derive(Drop)]
struct Stuck;

impl Write for Stuck {
    fn write(&mut self, _piece: &[u8]) -> io::Result<usize> {
        Ok(0)
    }

    fn flush(&mut self) -> io::Result<()> {
        Ok(())
    }
}

#[test]
fn std_source_reads_a_file(rt: HostRuntime) {
    fs::write(&rt, "in", "hello").expect(&rt, "it is written");
    let mut source = StdSource::new(fs::open(&rt, "in").expect(&rt, "it is there"));
    let mut into = [0u8; 3];
    for (count, bytes) in [(3, *b"hel"), (2, *b"lol"), (0, *b"lol")] {
        same(&rt, source.read(&mut into), Ok(count));
        assert!(rt; into == bytes);
    }
    fs::remove_file(&rt, "in").expect(&rt, "it is removed");
}

#[test]
fn std_source_fails_at_a_folder(rt: HostRuntime) {
    let mut folder = StdSource::new(fs::open(&rt, ".").expect(&rt, "it is there"));
    same(&rt, folder.read(&mut [0u8; 3]), Err(Failed));
}

#[test]
fn std_source_reads_after_signals(rt: HostRuntime) {
    let mut interrupted = StdSource::new(Interrupted { signals: 3 });
    let mut into = *b"lol";
    same(&rt, interrupted.read(&mut into), Ok(1));
    assert!(rt; into == [7, b'o', b'l']);
}

#[test]
fn std_sink_writes_a_file(rt: HostRuntime) {
    let mut sink = StdSink::new(fs::create(&rt, "replies").expect(&rt, "it is made"));
    same(&rt, [sink.write(b"ok\n"), sink.write(b"")], [Ok(3), Ok(0)]);
    let replies = fs::read(&rt, "replies").expect(&rt, "it is there");
    same(&rt, replies.as_slice(), b"ok\n".as_slice());
    fs::remove_file(&rt, "replies").expect(&rt, "it is removed");
}

#[test]
fn std_sink_fails_at_a_full_disk(rt: HostRuntime) {
    let mut full = StdSink::new(fs::create(&rt, "/dev/full").expect(&rt, "it is made"));
    same(&rt, full.write(b"ok\n"), Err(Failed));
}

#[test]
fn std_sink_writes_after_signals(rt: HostRuntime) {
    let mut interrupted = StdSink::new(Interrupted { signals: 3 });
    same(&rt, interrupted.write(b"ok\n"), Ok(1));
    let mut stuck = StdSink::new(Stuck);
    same(
        &rt,
        [stuck.write(b""), stuck.write(b"ok\n")],
        [Ok(0), Err(Failed)],
    );
}
