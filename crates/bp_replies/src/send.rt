//! Bytes for a sink.

ghost use Rattle.std.specs.Prelude.{OnOk, OnErr};
ghost use Rattle.std.specs.Io.KnownBytes.{Appends};
ghost use Rattle.bp_io.specs.Causes.{HasCause};
ghost use Rattle.bp_replies.specs.Taking.{TakesPart};

use bp_io::{Failed, Sink};

/// Passes all bytes to a sink.
///
/// # Errors
///
/// * `Failed`: the sink failed. It took a proper prefix of them.
pub fn send<K: Sink>(out: &mut K, bytes: &[u8]) -> Result<(), Failed>
    ensures all { OnOk result (Appends (K.view out.old).taken (K.view out.new).taken bytes.now) }
    ensures some { OnErr result (TakesPart bytes.now (K.view out.old).taken (K.view out.new).taken) }
    ensures cause { HasCause (K.view out.old).faults (K.view out.new).faults result }
{
    let mut at = 0;
    while at < bytes.len() {
        at += out.write(&bytes[at..])?;
    }
    Ok(())
}
