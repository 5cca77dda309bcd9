//! The lines of a script, and their construction from decoded fields.

ghost use Rattle.bp_script.specs.Commands.{attribute_command, bare_call, bare_command, cache_command, read_command, set_attribute_command, snap_read_command, storm_command, truncate_command, upgrade_command, whole_crash};
ghost use Rattle.bp_script.specs.Lines.{line_asks, path_row};
ghost use Rattle.std.specs.Prelude.{Ok, ◌≡◌};

use crate::verbs::PathVerb;
use bp_plain::Call;
use bp_replay::Cut;
use thiserror::Error;

/// The command of a line of a script.
#[derive(Clone, Copy, Debug, PartialEq, Eq)]
pub enum Line<'a> {
    /// A call on files.
    Call(Call<'a>),
    /// Makes all calls so far durable.
    Sync,
    /// Asks for the numbers of free and of live blocks.
    Space,
    /// A crash at a given point, with the given stores surviving.
    Crash(Cut<'a>),
    /// A crash whose point and surviving stores are drawn from this seed.
    Storm(u64),
    /// A crash that keeps the stores that the caches of two cores wrote back, in a run drawn from this seed.
    Cache(u64),
    /// Asks for the numbers of events, barriers and calls of the log.
    Log,
}

/// The line is not in the table of commands.
#[derive(Clone, Copy, Debug, PartialEq, Eq, Error)]
#[error("not a line of a script")]
pub struct Syntax;

/// Decodes a line of one field.
pub(crate) fn bare(verb: &[u8]) -> Result<Line<'static>, Syntax>
    ensures { line_asks result ≡ bare_command verb.now }
{
    match verb {
        b"sync" => Ok(Line::Sync),
        b"space" => Ok(Line::Space),
        b"log" => Ok(Line::Log),
        _ => bare_call(verb),
    }
}

/// Decodes the line of a call that has no path.
fn bare_call(verb: &[u8]) -> Result<Line<'static>, Syntax>
    ensures { line_asks result ≡ bare_call verb.now }
{
    match verb {
        b"upgrade" => Ok(Line::Call(Call::Upgrade)),
        b"snap" => Ok(Line::Call(Call::Snap)),
        b"unsnap" => Ok(Line::Call(Call::Unsnap)),
        _ => Err(Syntax),
    }
}

/// Decodes the line of a crash that keeps all stores, or only the durable ones.
pub(crate) fn whole_crash(word: &[u8]) -> Result<Line<'static>, Syntax>
    ensures { line_asks result ≡ whole_crash word.now }
{
    match word {
        b"all" => Ok(Line::Crash(Cut::All)),
        b"none" => Ok(Line::Crash(Cut::Nothing)),
        _ => Err(Syntax),
    }
}

/// Makes the line of a storm.
pub(crate) fn storm(seed: Option<u64>) -> Result<Line<'static>, Syntax>
    ensures { line_asks result ≡ storm_command seed }
{
    match seed {
        Some(seed) => Ok(Line::Storm(seed)),
        None => Err(Syntax),
    }
}

/// Makes the line of a crash by simulated caches.
pub(crate) fn cache(seed: Option<u64>) -> Result<Line<'static>, Syntax>
    ensures { line_asks result ≡ cache_command seed }
{
    match seed {
        Some(seed) => Ok(Line::Cache(seed)),
        None => Err(Syntax),
    }
}

/// Decodes the line of an upgrade with a field, which has to be the number 3 of the new version.
pub(crate) fn upgrade(word: &[u8]) -> Result<Line<'static>, Syntax>
    ensures { line_asks result ≡ upgrade_command word.now }
{
    match word {
        b"3" => Ok(Line::Call(Call::UpgradeToThree)),
        _ => Err(Syntax),
    }
}

/// Makes the line of a verb and a decoded path.
pub(crate) fn path_line(verb: PathVerb, path: &[u8]) -> Line<'_>
    ensures { line_asks (Ok result) ≡ path_row verb path.now }
{
    Line::Call(match verb {
        PathVerb::Create => Call::Create(path),
        PathVerb::Mkdir => Call::Mkdir(path),
        PathVerb::Unlink => Call::Unlink(path),
        PathVerb::Rmdir => Call::Rmdir(path),
        PathVerb::List => Call::List(path),
        PathVerb::Stat => Call::Stat(path),
        PathVerb::Links => Call::Links(path),
        PathVerb::SnapList => Call::SnapList(path),
        PathVerb::SnapStat => Call::SnapStat(path),
    })
}

/// Makes the line of a truncate.
pub(crate) fn truncate(path: &[u8], size: Option<u64>) -> Result<Line<'_>, Syntax>
    ensures { line_asks result ≡ truncate_command path.now size }
{
    match size {
        Some(size) => Ok(Line::Call(Call::Truncate { path, size })),
        None => Err(Syntax),
    }
}

/// Makes the line of a read.
pub(crate) fn read(path: &[u8], offset: Option<u64>, len: Option<usize>) -> Result<Line<'_>, Syntax>
    ensures { line_asks result ≡ read_command path.now offset len }
{
    match (offset, len) {
        (Some(offset), Some(len)) => Ok(Line::Call(Call::Read { path, offset, len })),
        _ => Err(Syntax),
    }
}

/// Makes the line of a read of the snapshot.
pub(crate) fn snap_read(
    path: &[u8],
    offset: Option<u64>,
    len: Option<usize>,
) -> Result<Line<'_>, Syntax>
    ensures { line_asks result ≡ snap_read_command path.now offset len }
{
    match (offset, len) {
        (Some(offset), Some(len)) => Ok(Line::Call(Call::SnapRead { path, offset, len })),
        _ => Err(Syntax),
    }
}

/// Makes the line that asks for an attribute.
pub(crate) fn attribute(path: &[u8], number: Option<u64>) -> Result<Line<'_>, Syntax>
    ensures { line_asks result ≡ attribute_command path.now number }
{
    match number {
        Some(number) => Ok(Line::Call(Call::Attribute { path, number })),
        None => Err(Syntax),
    }
}

/// Makes the line that sets an attribute.
pub(crate) fn set_attribute(
    path: &[u8],
    number: Option<u64>,
    value: Option<u64>,
) -> Result<Line<'_>, Syntax>
    ensures { line_asks result ≡ set_attribute_command path.now number value }
{
    match (number, value) {
        (Some(number), Some(value)) => Ok(Line::Call(Call::SetAttribute {
            path,
            number,
            value,
        })),
        _ => Err(Syntax),
    }
}
