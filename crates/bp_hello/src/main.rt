//! Writes a file to a volume in memory and reads it back.
#![tactic(auto)]

ghost use Rattle.std.specs.Prelude.{◌≤◌, IfOk, length};

use anyhow::{Context, Result};
use bp_limits::{BLOCK_WORDS, LOG_EVENTS};
use bp_plain::FsError;
use bp_volume::Volume;
use pm_raw::RawRegion;
use std::str;

/// Makes a file, and reads it into `bytes`. Returns how many bytes it has.
fn greet(volume: &mut Volume<RawRegion>, bytes: &mut [u8]) -> Result<usize, FsError>
    ensures { IfOk result (λ count. count ≤ length bytes.new) }
{
    volume.create(b"/greeting")?;
    volume.write(b"/greeting", 0, b"hello")?;
    volume.sync(); // makes both calls durable
    volume.read(b"/greeting", 0, bytes)
}

fn main(rt: HostRuntime) -> Result<()> {
    let alloc = rt.alloc();
    let region = RawRegion::new(alloc, 64 * BLOCK_WORDS, LOG_EVENTS)?;
    let mut volume = Volume::format(alloc, region).ok().context("out of memory")?;
    let mut bytes = [0; 64];
    let read = greet(&mut volume, &mut bytes);
    drop(volume);
    let text = str::from_utf8(&bytes[..read?])?;
    println!(rt; "/greeting: {text}")?;
    Ok(())
}
