//! The question before a format erases a file that is no image.

ghost use Rattle.bpfs.specs.Asking.{BeginsNoImage, IsMagic, IsYes, KeepsFormatted, RequestsFormat};
ghost use Rattle.std.specs.Prelude.{◌≡◌, ◌<◌, ◌↔◌, IfOk, IfSome, IsTrue, None, Ok, false, map};

use crate::reasons::Reason;
use bp_command::{Program, WordsFault, read_words};
use bp_limits::Version;
use std::alloc::{AllocError, Global};
use std::fs::File;
use std::io::Input;
use std::os::unix::fs::FileExt;
use std::{fs, rt};

/// Returns whether an answer is `y` or `yes`.
fn is_yes(answer: &str) -> bool
    ensures { IsTrue result ↔ IsYes answer.now }
{
    matches!(answer, "y\n" | "yes\n" | "y" | "yes")
}

/// Returns whether the first word of a file is that of an image.
fn is_magic(word: u64) -> bool
    ensures { IsTrue result ↔ IsMagic word }
{
    word == Version::One.magic() || word == Version::Two.magic() || word == Version::Three.magic()
}

/// Returns whether a file of this length, of which this is the first word, is erased only after a question: it is not
/// empty, and not known to begin as an image.
fn needs_question(length: u64, word: Option<u64>) -> bool
    ensures { IsTrue result ↔ ((0 < length) × BeginsNoImage word) }
{
    match word {
        Some(word) => length > 0 && !is_magic(word),
        None => length > 0,
    }
}

/// Returns the first word of a file, `None` if it has none or cannot be read.
fn first_word<R: rt::Files<File = File>>(runtime: &R, name: &str) -> Option<u64> {
    let file = File::open(runtime, name).ok()?;
    let mut bytes = [0; 8];
    file.read_exact_at(&mut bytes, 0).ok()?;
    Some(u64::from_le_bytes(bytes))
}

/// Returns whether a name leads to a regular file that is erased only after a question.
fn has_other_bytes<R: rt::Files<File = File>>(runtime: &R, name: &str) -> bool {
    match fs::metadata(runtime, name) {
        Ok(found) if found.is_file() => needs_question(found.len(), first_word(runtime, name)),
        _ => false,
    }
}

/// Asks whether a file may be erased. The answer is no if it cannot be read.
fn may_erase<R: Eprint + Input>(runtime: &R, alloc: Global, name: &str) -> bool {
    let asked = eprint!(runtime;
        "bpfs: {name}: neither empty nor an image. Erase the file? [y/N] "
    );
    if asked.is_err() {
        return false;
    }
    let mut answer = String::new(alloc);
    let is_read = runtime.read_line(&mut answer).is_ok();
    if !answer.ends_with('\n') {
        let _ = eprintln!(runtime; "");
    }
    is_read && is_yes(answer.as_str())
}

/// Returns the name of the file that a format is to erase, `None` if the arguments ask for no format.
fn format_name<'a>(alloc: Global, words: &'a [&'a str]) -> Result<Option<&'a str>, AllocError>
    ensures { IfOk result (λ found. IfSome found (λ name. RequestsFormat (map (λ word. word.now) words.now) name.now)) }
{
    match read_words(alloc, words) {
        Ok(
            Program::Format {
                name,
                blocks: _,
                version: _,
            },
        ) => Ok(Some(name)),
        Ok(_) | Err(WordsFault::Usage(_)) => Ok(None),
        Err(WordsFault::Memory) => Err(AllocError),
    }
}

/// Returns the reason if a file is not to be erased: a format is asked for, the file is neither empty nor an image, and
/// the answer at the terminal is not yes. Asks nothing if there is no terminal.
pub(crate) fn kept_file<'a, R: rt::Files<File = File> + Eprint + Input>(
    runtime: &R,
    alloc: Global,
    texts: &'a [&'a str],
    is_terminal: bool,
) -> Result<Option<Reason<'a>>, AllocError>
    ensures quiet { is_terminal ≡ false → result ≡ Ok None }
    ensures kept { IfOk result (λ found. IfSome found (KeepsFormatted (map (λ text. text.now) texts.now))) }
{
    if !is_terminal {
        return Ok(None);
    }
    let Some(name) = format_name(alloc, texts)? else {
        return Ok(None);
    };
    if !has_other_bytes(runtime, name) || may_erase(runtime, alloc, name) {
        return Ok(None);
    }
    Ok(Some(Reason::Kept(name)))
}
