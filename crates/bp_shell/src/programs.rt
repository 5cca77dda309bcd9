//! The programs.

ghost use Rattle.bp_command.specs.Commands.{IsTaken};
ghost use Rattle.bp_command.specs.Programs.{HasNumbersInRange, Program as Asked, Requests, program_of};
ghost use Rattle.bp_io.specs.Files.{KeepsOthers, StaysAttached};
ghost use Rattle.bp_session.specs.Serving.{CanServe};
ghost use Rattle.bp_shell.specs.Answering.{AnswersAsAsked, AnswersIfTaken, EndsAs, ProgramEnds, RunsMounted, PrintsUsage, texts_of};
ghost use Rattle.bp_shell.specs.Guarantee.{Guarantees};
ghost use Rattle.bp_shell.specs.Running.{LeavesFiles, OnlyWrites, RunOutcome};
ghost use Rattle.bp_shell.specs.Statuses.{ReadsNothing};
ghost use Rattle.bp_shell.specs.declared.status.Status.TheVariants.{Memory, Usage};
ghost use Rattle.std.specs.Prelude.{◌≡◌, ◌⊎◌};

use crate::check::check_file;
use crate::export::export_file;
use crate::format::format_file;
use crate::image_file::open;
use crate::output::{report_notice, report_stop};
use crate::play::play_file;
use crate::status::Status;
use bp_command::laws::{plain_words_are_taken, words_ask_for_one_program};
use bp_command::{Program, WordsFault, read_words};
use bp_fs::StoredFileSystem;
use bp_io::{Failed, Files, Sink, Source};
use bp_limits::BLOCK_WORDS;
use bp_mount::Mount;
use bp_script::Notice;
use bp_session::save::{DirtyBlocks, sync_and_save};
use bp_session::{Work, serve_gathered};
use pm_raw::RawRegion;
use pm_region::Region;
use std::alloc::Global;

/// Serves the script of a source over a file system whose file was just read, and saves its words at the end.
fn serve_and_save<V: StoredFileSystem, S: Source, K: Sink, F: Files>(
    alloc: Global,
    system: &mut V,
    work: &mut Work,
    source: &mut S,
    out: &mut K,
    files: &mut F,
) -> Status
    requires { CanServe (V.memory system.old) (F.view files.old) }
    // From whichever file it was mounted.
    ensures outcome { RunsMounted result S.view K.view F.view
        source.old out.old files.old (V.memory system.old) source.new out.new files.new }
    ensures unread { ReadsNothing result → source.new ≡ source.old }
    ensures attached { StaysAttached (F.view files.old) (F.view files.new) }
    ensures others { KeepsOthers (F.view files.old) (F.view files.new) }
{
    let mut dirty = DirtyBlocks::none((system.region().words() / BLOCK_WORDS) as u32);
    if let Err(broken) = serve_gathered(alloc, system, work, &mut dirty, source, out, files) {
        return Status::from(broken);
    }
    match sync_and_save(system, &mut dirty, files) {
        Ok(()) => Status::Done,
        Err(Failed) => Status::FilesFailed,
    }
}

/// Allocates the memory of a run, and serves the script of a source over a file system whose file was just read.
fn run_over<V: StoredFileSystem, S: Source, K: Sink, F: Files>(
    alloc: Global,
    system: &mut V,
    source: &mut S,
    out: &mut K,
    files: &mut F,
) -> Status
    requires { CanServe (V.memory system.old) (F.view files.old) }
    // From whichever file it was mounted.
    ensures outcome { RunsMounted result S.view K.view F.view
        source.old out.old files.old (V.memory system.old) source.new out.new files.new }
    ensures unread { ReadsNothing result → source.new ≡ source.old }
    ensures attached { StaysAttached (F.view files.old) (F.view files.new) }
    ensures others { KeepsOthers (F.view files.old) (F.view files.new) }
{
    match Work::new(alloc) {
        Ok(mut work) => serve_and_save(alloc, system, &mut work, source, out, files),
        Err(_) => Status::Memory,
    }
}

/// Serves the script of a source over the file of a name.
fn run_file<M: Mount<Region = RawRegion> + Drop, S: Source, K: Sink, F: Files>(
    alloc: Global,
    name: &str,
    source: &mut S,
    out: &mut K,
    files: &mut F,
) -> Status
    ensures outcome { EndsAs (RunOutcome result) name.now S.view K.view F.view
        source.old out.old files.old source.new out.new files.new }
    ensures unread { ReadsNothing result → source.new ≡ source.old }
    ensures files { OnlyWrites name.now (F.view files.old) (F.view files.new) }
{
    match open::<M, F>(alloc, name, files) {
        Ok(mut system) => run_over(alloc, &mut system, source, out, files),
        Err(stop) => report_stop(stop, out),
    }
}

/// Does what a program asks for.
fn run_program<M: Mount<Region = RawRegion> + Drop, S: Source, K: Sink, F: Files>(
    alloc: Global,
    program: &Program<'_>,
    source: &mut S,
    out: &mut K,
    files: &mut F,
) -> Status
    requires { HasNumbersInRange (program_of program.now) }
    ensures outcome { ProgramEnds (program_of program.now) result S.view K.view F.view
        source.old out.old files.old source.new out.new files.new }
    ensures unread { ReadsNothing result → source.new ≡ source.old }
    ensures asked { ¬ (result ≡ Usage) }
    ensures files { LeavesFiles (program_of program.now) (F.view files.old) (F.view files.new) }
{
    match *program {
        Program::Format {
            name,
            blocks,
            version,
        } => format_file(alloc, name, blocks, version, out, files),
        Program::Run { name } => run_file::<M, S, K, F>(alloc, name, source, out, files),
        Program::Check { name } => check_file(alloc, name, out, files),
        Program::Play { name, seed, count } => play_file::<M, K, F>(
            alloc, name, seed, count, out, files,
        ),
        Program::Export { name } => export_file(alloc, name, out, files),
    }
}

/// Does what the arguments ask for, and returns how that ended. The first argument is the name under which the
/// program was called. A run and a play mount FILE as `M`. `Status` lists when each status comes.
pub fn run<M: Mount<Region = RawRegion> + Drop, S: Source, K: Sink, F: Files>(
    alloc: Global,
    words: &[&str],
    source: &mut S,
    out: &mut K,
    files: &mut F,
) -> Status
    ensures usage { result ≡ Usage → ¬ IsTaken (texts_of words.now) }
    ensures not_taken { ¬ IsTaken (texts_of words.now) → (result ≡ Usage) ⊎ (result ≡ Memory) }
    ensures reported { result ≡ Usage → PrintsUsage (K.view out.old) (K.view out.new) }
    ensures unread { ReadsNothing result → source.new ≡ source.old }
    ensures untouched { result ≡ Usage → files.new ≡ files.old }

    // Arguments that ask for a program in the plain form.
    ensures plain { AnswersAsAsked (texts_of words.now) result S.view K.view F.view
        source.old out.old files.old source.new out.new files.new }

    // The guarantee, which follows from `plain`: for a reader who wants to read the abstract trees alone.
    ensures guarantee { Guarantees (texts_of words.now) result S.view K.view F.view
        source.old out.old files.old source.new out.new files.new }

    // All other arguments that are accepted. Memory may lack before they are read.
    ensures others { AnswersIfTaken (texts_of words.now) result S.view K.view F.view
        source.old out.old files.old source.new out.new files.new }

    // What any arguments leave of the files, FILE and others.
    ensures files { (program : Asked) → Requests (texts_of words.now) program →
        LeavesFiles program (F.view files.old) (F.view files.new) }
{
    plain_words_are_taken();
    words_ask_for_one_program();
    match read_words(alloc, words) {
        Ok(program) => run_program::<M, S, K, F>(alloc, &program, source, out, files),
        Err(WordsFault::Usage(_)) => {
            report_notice(&Notice::Usage, out);
            Status::Usage
        }
        Err(WordsFault::Memory) => Status::Memory,
    }
}
