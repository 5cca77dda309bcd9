//! Attributes of files and directories: `bpfs_set_attribute`, `bpfs_attribute`.

ghost use Rattle.std.specs.Prelude.{◌≡◌, ◌<◌, ◌≤◌};
ghost use Rattle.bp_limits.specs.Limits.{attributes};
ghost use Rattle.bp_plain.specs.Calls.Call.{attribute, set_attribute};
ghost use Rattle.bp_volume.specs.Seen.{attribute_answer};
ghost use Rattle.bpfs_c.specs.Codes.{ReportsAttribute};
ghost use Rattle.bpfs_c.specs.Exports.{AsksAttribute, ExportsChange};

use crate::codes::{CLOSED, LOG_FULL, Lack, OK, OUT_OF_RANGE, ended, number_of};
use crate::handle::Handle;
use crate::mounted::has_room;
use bp_limits::ATTRIBUTES;
use bp_plain::FsError;
use std::alloc::Global;

/// Gives an attribute of a file or directory a value.
#[unsafe(no_mangle)]
pub extern "C" fn bpfs_set_attribute(
    alloc: Global,
    handle: &mut Handle,
    path: &[u8],
    number: u64,
    value: u64,
    lack: &mut Lack,
) -> u32
    ensures fit { number < attributes →
        ExportsChange handle.old.held (set_attribute path.now number value) lack.old result lack.new handle.new.held }
    ensures unfit { attributes ≤ number →
        (result ≡ 38) × (handle.new.held ≡ handle.old.held) × (lack.new ≡ lack.old) }
{
    if ATTRIBUTES <= number {
        return OUT_OF_RANGE;
    }
    let Some(mut mounted) = handle.take(alloc) else {
        return CLOSED;
    };
    let code = if has_room(&mounted) {
        ended(mounted.volume.set_attribute(path, number, value), lack)
    } else {
        LOG_FULL
    };
    handle.put(alloc, mounted);
    code
}

/// Stores the value of an attribute, and returns the number of the call's end.
fn report_attribute(ending: Result<u64, FsError>, value: &mut u64) -> u32
    ensures { ReportsAttribute (attribute_answer ending) value.old result value.new }
{
    match ending {
        Ok(found) => {
            *value = found;
            OK
        }
        Err(error) => number_of(error),
    }
}

/// Looks up an attribute of a file or directory. It adds nothing to the log.
#[unsafe(no_mangle)]
pub extern "C" fn bpfs_attribute(
    alloc: Global,
    handle: &mut Handle,
    path: &[u8],
    number: u64,
    value: &mut u64,
) -> u32
    ensures fit { number < attributes →
        AsksAttribute handle.old.held (attribute path.now number) value.old result value.new handle.new.held }
    ensures unfit { attributes ≤ number →
        (result ≡ 38) × (handle.new.held ≡ handle.old.held) × (value.new ≡ value.old) }
{
    if ATTRIBUTES <= number {
        return OUT_OF_RANGE;
    }
    let Some(mut mounted) = handle.take(alloc) else {
        return CLOSED;
    };
    let code = report_attribute(mounted.volume.look_attribute(path, number), value);
    handle.put(alloc, mounted);
    code
}
