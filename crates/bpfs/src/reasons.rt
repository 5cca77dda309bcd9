//! Why a program ended, as a line of standard error.

use bp_command::{WordsFault, mistake_line, read_words};
use bp_limits::MAX_INPUT;
use bp_shell::Status;
use std::alloc::Global;
use std::io;

/// The reason for a status that is no answer about FILE: a device that failed, memory that lacks, or wrong arguments.
#[derive(Drop)]
pub(crate) enum Reason<'a> {
    /// Standard input failed, with this error of the system.
    Input(Option<io::Error>),
    /// Standard output failed.
    Output(Option<io::Error>),
    /// The file of this name failed.
    File(&'a str, Option<io::Error>),
    /// Standard output goes to the file of this name.
    OwnOutput(&'a str),
    /// The file of this name was not to be erased.
    Kept(&'a str),
    /// There is no file of this name.
    Missing(&'a str),
    /// The file of this name is no file system.
    Refused(&'a str),
    /// The file of this name has a path that no call can spell.
    Deep(&'a str),
    /// Standard input has more bytes than a script may have.
    LongInput,
    /// There is too little memory.
    Memory,
    /// An argument is no text.
    NoText,
    /// The arguments are wrong, as this text says.
    Words(&'a str),
}

/// Prints what failed, with the system's message.
fn report_fault<E: Eprint>(runtime: &E, device: &str, error: Option<io::Error>) -> io::Result<()> {
    match error {
        Some(error) => eprintln!(runtime; "bpfs: {device}: {error}"),
        None => eprintln!(runtime; "bpfs: {device}: unknown error"),
    }
}

/// Prints the reason as one line, as far as standard error takes it.
pub(crate) fn report_reason<E: Eprint>(runtime: &E, reason: Reason<'_>) {
    let _ = match reason {
        Reason::Input(error) => report_fault(runtime, "standard input", error),
        Reason::Output(error) => report_fault(runtime, "standard output", error),
        Reason::File(name, error) => report_fault(runtime, name, error),
        Reason::OwnOutput(name) => eprintln!(runtime;
            "bpfs: {name}: standard output is the image itself"
        ),
        Reason::Kept(name) => eprintln!(runtime;
            "bpfs: {name}: not formatted: the answer was not y or yes"
        ),
        Reason::Missing(name) => eprintln!(runtime; "bpfs: {name}: no such file"),
        Reason::Refused(name) => eprintln!(runtime; "bpfs: {name}: not a file system"),
        Reason::Deep(name) => eprintln!(runtime; "bpfs: {name}: a path is too long to be exported"),
        Reason::LongInput => eprintln!(runtime;
            "bpfs: standard input: more than {MAX_INPUT} bytes"
        ),
        Reason::Memory => eprintln!(runtime; "bpfs: out of memory"),
        Reason::NoText => eprintln!(runtime; "bpfs: an argument is not valid UTF-8"),
        Reason::Words(mistake) => eprintln!(runtime; "bpfs: {mistake}"),
    };
}

/// Prints why the program ended so, if its one line says that and standard output did not take the line.
pub(crate) fn report_unreported<E: Eprint>(runtime: &E, status: Status, name: &str) {
    match status {
        Status::Missing => report_reason(runtime, Reason::Missing(name)),
        Status::Refused => report_reason(runtime, Reason::Refused(name)),
        Status::Deep => report_reason(runtime, Reason::Deep(name)),
        _ => {}
    }
}

/// Prints why the arguments are no command: the help that they ask for, or the mistake in them. Prints nothing if
/// memory for that lacks.
pub(crate) fn report_usage<E: Eprint>(runtime: &E, alloc: Global, words: &[&str]) {
    match read_words(alloc, words) {
        Err(WordsFault::Usage(mistake)) if mistake.use_stderr() => {
            if let Ok(line) = mistake_line(alloc, &mistake) {
                report_reason(runtime, Reason::Words(line.as_str()));
            }
        }
        Err(WordsFault::Usage(help)) => {
            let _ = eprint!(runtime; "{help}");
        }
        Ok(_) | Err(WordsFault::Memory) => {}
    }
}
