//! The file of a program.

ghost use Rattle.std.specs.Prelude.{◌≡◌, ◌<◌, ◌≤◌, ◌+◌, ◌*◌, ◌/◌, ◌%◌, ◌++◌, [], ◌⊎◌, IfErr, IfOk, OnOk, false, length};
ghost use Rattle.bp_io.specs.Files.{KeepsFiles, Reads, makes, may_change};
ghost use Rattle.bp_io.specs.Views.{Known};
ghost use Rattle.bp_layout.specs.Formatted.{IsSized};
ghost use Rattle.bp_layout.specs.Bytes.{image_bytes};
ghost use Rattle.bp_layout.specs.Whole.{IsFileSystem};
ghost use Rattle.bp_layout.specs.Words.{Image};
ghost use Rattle.bp_limits.specs.Limits.{block_size, block_words, log_events, max_file_blocks};
ghost use Rattle.bp_roles.specs.Mounted.{by_roles};
ghost use Rattle.bp_script.specs.declared.notices.Notice.{Notice};
ghost use Rattle.bp_session.specs.Files.{AreWordsOf64Bits, CanSave, HasImage, Holds, HoldsFirstBlocks};
ghost use Rattle.bp_shell.specs.Opening.{AttachesAs, FindsImage, HasLoaded, HasSized, HoldsFileSystem, IsStart, Mounts, OnlyReads, RefusesFile};
ghost use Rattle.bp_shell.specs.Stops.{HasStopCause, IsReason, stop_by};
ghost use Rattle.bp_shell.specs.declared.stop.Stop.TheVariants.{Memory, Outside, Refused};

use crate::stop::Stop;
use bp_io::{Access, BLOCK, Failed, Files};
use bp_limits::{BLOCK_WORDS, LOG_EVENTS, MAX_FILE_BLOCKS};
use bp_mount::Mount;
use bp_scan::{MountFault, image_length};
use bp_script::Notice;
use bp_session::blocks::RUN_BLOCKS;
use pm_raw::{Filling, RawRegion};
use std::alloc::Global;

/// Appends the words that a run of bytes spells.
fn push_run(filling: &mut Filling, run: &[u8])
    requires whole { length run.now % 8 ≡ 0 }
    requires room { length filling.old.words + length run.now / 8 ≤ filling.old.size }
    requires words { AreWordsOf64Bits filling.old.words }
    ensures bytes { image_bytes filling.new.words ≡ image_bytes filling.old.words ++ run.now }
    ensures words { AreWordsOf64Bits filling.new.words }
    ensures long { length filling.new.words ≡ length filling.old.words + length run.now / 8 }
    ensures size { filling.new.size ≡ filling.old.size }
{
    filling.push_bytes(run);
}

/// Reads as many blocks of the attached file as `into` has room for, from block `first` on, and appends their words.
fn load_run<F: Files>(
    filling: &mut Filling,
    first: u32,
    into: &mut [u8],
    files: &mut F,
) -> Result<(), Stop>
    requires whole { length into.old % block_size ≡ 0 }
    requires inside { first + length into.old / block_size ≤ (F.view files.old).blocks }
    requires loaded { HasLoaded (F.view files.old) first filling.old }
    ensures kinds { IfErr result (λ e. e ≡ Outside) }
    ensures cause { HasStopCause (F.view files.old).faults (F.view files.new).faults result }
    ensures loaded { OnOk result
        (HasLoaded (F.view files.old) (first + length into.old / block_size) filling.new) }
    ensures size { filling.new.size ≡ filling.old.size }
    ensures reads { Reads (F.view files.old) (F.view files.new) }
{
    match files.read_blocks(first, into) {
        Ok(()) => {
            push_run(filling, into);
            Ok(())
        }
        Err(Failed) => Err(Stop::Outside),
    }
}

/// Reads the attached file of `count` blocks into the words of a new region.
fn load<F: Files>(filling: &mut Filling, count: u32, files: &mut F) -> Result<(), Stop>
    requires count { count ≡ (F.view files.old).blocks }
    requires size { filling.old ≡ record { words = []; size = block_words * count } }
    ensures kinds { IfErr result (λ e. e ≡ Outside) }
    ensures cause { HasStopCause (F.view files.old).faults (F.view files.new).faults result }
    ensures image { OnOk result (HoldsFirstBlocks (F.view files.old) count filling.new.words) }
    ensures words { OnOk result (AreWordsOf64Bits filling.new.words) }
    ensures whole { OnOk result (length filling.new.words ≡ block_words * count) }
    ensures size { filling.new.size ≡ block_words * count }
    ensures reads { Reads (F.view files.old) (F.view files.new) }
{
    let mut bytes = [0u8; BLOCK * RUN_BLOCKS as usize];
    let mut first = 0;
    while first < count {
        let run = RUN_BLOCKS.min(count - first);
        let into = &mut bytes[..BLOCK * run as usize];
        load_run(filling, first, into, files)?;
        first += run;
    }
    Ok(())
}

/// Converts a mount fault to the reason for which a program ends.
pub(crate) fn stop_of(fault: MountFault) -> Stop
    ensures { result ≡ stop_by fault }
{
    match fault {
        MountFault::NotFormatted => Stop::Refused(Notice::NotFormatted),
        MountFault::BadSize { found, wanted } => Stop::Refused(Notice::BadSize { found, wanted }),
        MountFault::Damaged { check, place } => Stop::Refused(Notice::Damaged {
            check: check.number(),
            place,
        }),
        MountFault::Memory => Stop::Memory,
    }
}

/// Attaches the file of a name, and returns the number of blocks of its image. No file is created.
fn find_image<F: Files>(name: &str, access: Access, files: &mut F) -> Result<u32, Stop>
    requires { makes access ≡ false }
    ensures found { IfOk result
        (λ count. FindsImage ((F.view files.old).contents name.now) name.now count (F.view files.new)) }
    ensures may_write { OnOk result ((F.view files.new).may_write ≡ may_change access) }
    ensures reason { IfErr result (IsReason ((F.view files.old).contents name.now)) }
    ensures cause { HasStopCause (F.view files.old).faults (F.view files.new).faults result }
    ensures kept { KeepsFiles (F.view files.old) (F.view files.new) }
    ensures attached { AttachesAs access name.now (F.view files.old) (F.view files.new) }
    ensures flushed { (F.view files.new).is_flushed ≡ (F.view files.old).is_flushed }
{
    let len = match files.attach(name, access) {
        Ok(Some(len)) => len,
        Ok(None) => return Err(Stop::Missing),
        Err(Failed) => return Err(Stop::Outside),
    };
    match image_length(MAX_FILE_BLOCKS, len) {
        Ok(count) => Ok(count),
        Err(fault) => Err(stop_of(fault)),
    }
}

/// Reads the file of a name, which is attached then, into a region. No file is created.
pub(crate) fn load_file<F: Files>(
    alloc: Global,
    name: &str,
    access: Access,
    files: &mut F,
) -> Result<RawRegion, Stop>
    requires { makes access ≡ false }
    ensures image { IfOk result (λ region. HasSized ((F.view files.old).contents name.now) region.base) }
    ensures holds { IfOk result (λ region. Holds (F.view files.new) name.now region.base) }
    ensures starts { IfOk result (λ region. IsStart region.base region) }
    ensures may_write { OnOk result ((F.view files.new).may_write ≡ may_change access) }
    ensures reason { IfErr result (IsReason ((F.view files.old).contents name.now)) }
    ensures cause { HasStopCause (F.view files.old).faults (F.view files.new).faults result }
    ensures kept { KeepsFiles (F.view files.old) (F.view files.new) }
    ensures attached { AttachesAs access name.now (F.view files.old) (F.view files.new) }
    ensures flushed { (F.view files.new).is_flushed ≡ (F.view files.old).is_flushed }
{
    let count = find_image(name, access, files)?;
    let mut region = match RawRegion::new(alloc, 0, LOG_EVENTS) {
        Ok(region) => region,
        Err(_) => return Err(Stop::Memory),
    };
    let mut filling = match Filling::new(alloc, BLOCK_WORDS * count as u64) {
        Ok(filling) => filling,
        Err(_) => return Err(Stop::Memory),
    };
    load(&mut filling, count, files)?;
    region.adopt_all(filling.finish());
    Ok(region)
}

/// Mounts a region of the words of an image.
fn mount<M: Mount<Region = RawRegion>>(alloc: Global, region: RawRegion) -> Result<M, Stop>
    requires starts { IsStart region.base region }
    requires sized { IsSized region.base }
    ensures same { IfOk result (λ system. M.memory system ≡ region) }
    ensures well_formed { OnOk result (IsFileSystem (by_roles region.base)) }
    ensures refused { IfErr result (λ stop. (known : Known) (notice : Notice) → HasImage known region.base →
        stop ≡ Refused notice → RefusesFile known notice) }
    ensures kinds { IfErr result (λ stop. ((notice : Notice) × (stop ≡ Refused notice)) ⊎ (stop ≡ Memory)) }
{
    match M::mount(alloc, region) {
        Ok(system) => Ok(system),
        Err((_, fault)) => Err(stop_of(fault)),
    }
}

/// Mounts the file of a name, which is attached for writing then: scripts can be served over both. No file is
/// created.
///
/// # Errors
///
/// * `Missing`: the file does not exist.
/// * `Outside`: the files failed.
/// * `Refused`: the file is no file system of at most `MAX_FILE_BLOCKS` blocks.
/// * `Memory`: allocation of memory for the file system failed.
pub fn open<M: Mount<Region = RawRegion>, F: Files>(
    alloc: Global,
    name: &str,
    files: &mut F,
) -> Result<M, Stop>
    ensures opened { IfOk result (λ system. Mounts (F.view files.old) name.now (F.view files.new) (M.memory system)) }
    ensures ready { IfOk result (λ system. CanSave (M.memory system).base (F.view files.new)) }
    ensures capacity { IfOk result (λ system. (M.memory system).capacity ≡ log_events) }
    ensures reason { IfErr result (IsReason ((F.view files.old).contents name.now)) }
    ensures cause { HasStopCause (F.view files.old).faults (F.view files.new).faults result }
    ensures kept { KeepsFiles (F.view files.old) (F.view files.new) }
    ensures attached { AttachesAs Access.Write name.now (F.view files.old) (F.view files.new) }
    ensures flushed { (F.view files.new).is_flushed ≡ (F.view files.old).is_flushed }
{
    let region = load_file(alloc, name, Access::Write, files)?;
    mount(alloc, region)
}

/// Mounts the file of a name, which is attached for reading only then. No file is created.
pub(crate) fn open_to_read<M: Mount<Region = RawRegion>, F: Files>(
    alloc: Global,
    name: &str,
    files: &mut F,
) -> Result<M, Stop>
    ensures opened { IfOk result (λ system. (image : Image)
        × HoldsFileSystem ((F.view files.old).contents name.now) image × IsStart image (M.memory system)) }
    ensures reason { IfErr result (IsReason ((F.view files.old).contents name.now)) }
    ensures cause { HasStopCause (F.view files.old).faults (F.view files.new).faults result }
    ensures reads { OnlyReads name.now (F.view files.old) (F.view files.new) }
    ensures flushed { (F.view files.new).is_flushed ≡ (F.view files.old).is_flushed }
{
    let region = load_file(alloc, name, Access::Read, files)?;
    mount(alloc, region)
}
