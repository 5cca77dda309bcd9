//! The program `bpfs`.
//!
//! * `bpfs format FILE --blocks N` makes FILE a file system of N blocks, of version 1 or that of `--version V`.
//! * `bpfs run FILE` serves the script of standard input over it, and writes the replies to standard output.
//! * `bpfs check FILE` checks whether FILE is a file system, and prints its totals.
//! * `bpfs play FILE --seed S --count C` prints the outcome of C operations.
//! * `bpfs export FILE` writes the script that makes its tree.
//! * `bpfs --version` prints the version of the program.
//!
//! At a terminal, a run shows a prompt before each line, and a format asks before it erases a file that is no image.
#![tactic(auto)]

ghost use Rattle.bp_command.specs.Commands.{IsTaken};
ghost use Rattle.bpfs.specs.Asking.{AsksForProgramVersion, IsVersionFlag};
ghost use Rattle.std.specs.Prelude.{◌≡◌, ◌↔◌, IfOk, IsTrue, map, string_bytes};

mod asking;
mod reasons;
mod streams;
mod typing;

use crate::asking::kept_file;
use crate::reasons::{Reason, report_reason, report_unreported, report_usage};
use crate::streams::{leads_to, output_file, take_streams};
use crate::typing::{Prompts, Typed};
use bp_command::laws::version_flags_are_no_command;
use bp_command::{Program, WordsFault, read_words};
use bp_disk::{DiskFiles, StdSink, StdSource};
use bp_shell::{Status, run};
use bp_volume::Volume;
use pm_raw::RawRegion;
use std::alloc::{AllocError, Global};
use std::env::{self, Env};
use std::fs::File;
use std::io::{ErrorKind, IsTerminal};
use std::process::ExitCode;
use std::{io, rt};

/// The version of the program, which is that of the file `VERSION`.
const VERSION: &str = "0.1.0";

/// Borrows the arguments as text.
fn texts(alloc: Global, words: &[String]) -> Result<Vec<&str>, AllocError>
    ensures { IfOk result (λ texts. map (λ text. text.now) texts.items ≡ map string_bytes words.entry.now) }
{
    let mut texts = Vec::with_capacity(alloc, words.len())?;
    for word in words {
        texts.push(word.as_str())?;
    }
    Ok(texts)
}

/// Returns the name of the file in the arguments, `None` if they are no command.
fn file_name<'a>(alloc: Global, words: &'a [&'a str]) -> Result<Option<&'a str>, AllocError> {
    match read_words(alloc, words) {
        Ok(
            Program::Format {
                name,
                blocks: _,
                version: _,
            },
        ) => Ok(Some(name)),
        Ok(Program::Run { name }) => Ok(Some(name)),
        Ok(Program::Check { name }) => Ok(Some(name)),
        Ok(
            Program::Play {
                name,
                seed: _,
                count: _,
            },
        ) => Ok(Some(name)),
        Ok(Program::Export { name }) => Ok(Some(name)),
        Err(WordsFault::Usage(_)) => Ok(None),
        Err(WordsFault::Memory) => Err(AllocError),
    }
}

/// Returns the name of the program's file for a reason, or `FILE` if it is unknown.
fn known_name<'a>(alloc: Global, words: &'a [&'a str]) -> &'a str {
    match file_name(alloc, words) {
        Ok(Some(name)) => name,
        Ok(None) | Err(AllocError) => "FILE",
    }
}

/// Returns the arguments of the call, first the name under which the program was called. Returns none if one of them
/// is no text.
fn program_words<R: Env + AllocGlobal>(runtime: &R) -> Result<Vec<String>, AllocError> {
    match env::args(runtime) {
        Ok(args) => args.collect(runtime.alloc()),
        Err(error) if error.kind() == ErrorKind::OutOfMemory => Err(AllocError),
        Err(_) => Ok(Vec::new(runtime.alloc())),
    }
}

/// Returns the reason if standard output may go to the file of the program: replies would be written over the image.
/// `None` if it is known to be another file, or nothing is known of standard output.
fn own_output<'a, R: rt::Files<File = File>>(
    runtime: &R,
    alloc: Global,
    texts: &'a [&'a str],
) -> Result<Option<Reason<'a>>, AllocError> {
    let Some(output) = output_file(runtime) else {
        return Ok(None);
    };
    let Some(name) = file_name(alloc, texts)? else {
        return Ok(None);
    };
    match leads_to(runtime, name, &output) {
        Ok(false) => Ok(None),
        Ok(true) => Ok(Some(Reason::OwnOutput(name))),
        Err(error) => Ok(Some(Reason::File(name, Some(error)))),
    }
}

/// The last error of the system at each device.
#[derive(Drop)]
struct LastErrors {
    input: Option<io::Error>,
    output: Option<io::Error>,
    files: Option<io::Error>,
}

/// Prints why the program ended with this status, if standard output does not say it.
fn report_end<E: Eprint>(
    runtime: &E,
    alloc: Global,
    status: Status,
    texts: &[&str],
    last: LastErrors,
) {
    let LastErrors {
        input,
        output,
        files,
    } = last;
    match status {
        Status::Usage if texts.is_empty() => report_reason(runtime, Reason::NoText),
        Status::Usage => report_usage(runtime, alloc, texts),
        Status::SourceFailed => report_reason(runtime, Reason::Input(input)),
        Status::SinkFailed => report_reason(runtime, Reason::Output(output)),
        Status::FilesFailed => report_reason(
            runtime,
            Reason::File(known_name(alloc, texts), files),
        ),
        Status::LongInput => report_reason(runtime, Reason::LongInput),
        Status::Memory => report_reason(runtime, Reason::Memory),
        Status::Missing | Status::Refused | Status::Deep if output.is_some() => {
            report_unreported(runtime, status, known_name(alloc, texts));
        }
        Status::Done | Status::Missing | Status::Refused | Status::Deep => {}
    }
}

/// Prints why nothing is done, and returns the exit status for it.
fn refuse<E: Eprint>(runtime: &E, status: Status, reason: Reason<'_>) -> ExitCode {
    report_reason(runtime, reason);
    ExitCode::from(status.code())
}

/// Prints that memory lacks, and returns the exit status for it.
fn out_of_memory<E: Eprint>(runtime: &E) -> ExitCode {
    refuse(runtime, Status::Memory, Reason::Memory)
}

/// Returns whether an argument asks for the version of the program.
fn is_version_flag(word: &str) -> bool
    ensures { IsTrue result ↔ IsVersionFlag word.now }
{
    matches!(word, "--version" | "-V")
}

/// Returns whether the arguments ask for the version of the program, and for nothing else.
fn asks_for_version(texts: &[&str]) -> bool
    ensures asks { IsTrue result ↔ AsksForProgramVersion (map (λ text. text.now) texts.now) }
    // So nothing that is a command is answered by the version.
    ensures other { IsTrue result → ¬ IsTaken (map (λ text. text.now) texts.now) }
{
    version_flags_are_no_command();
    match texts {
        [_called, word] => is_version_flag(word),
        _ => false,
    }
}

/// Prints the version of the program, and returns the exit status.
fn print_version<R: Print + Eprint>(runtime: &R) -> ExitCode {
    match println!(runtime; "bpfs {VERSION}") {
        Ok(()) => ExitCode::from(Status::Done.code()),
        Err(error) => refuse(runtime, Status::SinkFailed, Reason::Output(Some(error))),
    }
}

/// Returns the reason for which nothing is done: replies would be written over the image, or a file is not to be
/// erased.
fn objection<'a>(
    runtime: &HostRuntime,
    alloc: Global,
    texts: &'a [&'a str],
) -> Result<Option<Reason<'a>>, AllocError> {
    match own_output(runtime, alloc, texts) {
        Ok(None) => {
            let is_terminal = runtime.stdin().is_terminal() && runtime.stderr().is_terminal();
            kept_file(runtime, alloc, texts, is_terminal)
        }
        found => found,
    }
}

/// Does what the arguments ask for, prints why that ended, and returns the exit status.
fn do_program(runtime: &HostRuntime, alloc: Global, texts: &[&str]) -> ExitCode {
    let Ok(mut files) = DiskFiles::new(alloc, runtime) else {
        return out_of_memory(runtime);
    };
    let (input, output) = (runtime.stdin(), runtime.stdout());
    let prompts = Prompts::at(
        input.is_terminal(),
        output.is_terminal(),
        runtime.stderr().is_terminal(),
    );
    let mut source = Typed::new(StdSource::new(input), runtime, prompts);
    let mut sink = StdSink::new(output);
    let status = run::<Volume<RawRegion>, _, _, _>(
        alloc,
        texts,
        &mut source,
        &mut sink,
        &mut files,
    );
    let last = LastErrors {
        input: source.into_source().last_error(),
        output: sink.last_error(),
        files: files.last_error(),
    };
    report_end(runtime, alloc, status, texts, last);
    ExitCode::from(status.code())
}

fn main(runtime: HostRuntime) -> ExitCode {
    let _streams = match take_streams(&runtime) {
        Ok(streams) => streams,
        Err(error) => {
            let reason = Reason::File("/dev/null", Some(error));
            return refuse(&runtime, Status::FilesFailed, reason);
        }
    };
    let alloc = runtime.alloc();
    let Ok(words) = program_words(&runtime) else {
        return out_of_memory(&runtime);
    };
    let Ok(texts) = texts(alloc, &words) else {
        return out_of_memory(&runtime);
    };
    if asks_for_version(&texts) {
        return print_version(&runtime);
    }
    match objection(&runtime, alloc, &texts) {
        Ok(None) => do_program(&runtime, alloc, &texts),
        Ok(Some(reason)) => refuse(&runtime, Status::FilesFailed, reason),
        Err(AllocError) => out_of_memory(&runtime),
    }
}
