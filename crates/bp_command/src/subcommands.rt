//! The command `bpfs` with its subcommands.

ghost use Rattle.std.specs.Prelude.{IfOk};
ghost use Rattle.bp_command.specs.Commands.{IsArgument, IsCommand, bare_app, blocks_rule, bpfs_app, check_app, count_rule, export_app, file_rule, format_app, play_app, run_app, seed_rule, version_rule};

use bp_limits::{MAX_FILE_BLOCKS, MAX_TURNS, MIN_BLOCKS};
use clap::builder::ValueParser;
use clap::{Arg, Command, value_parser};
use std::alloc::{AllocError, Global};

/// The end of the help of the program.
const EXAMPLES: &str = "\
Examples:
  bpfs format disk.img --blocks 64 --version 2
  bpfs run disk.img < script

On a terminal, the lines of `bpfs run FILE` can be typed; its line `help` lists them all.
`bpfs --version` prints the version of the program.
Script lines, replies and exit statuses: man bpfs, or docs/script.md";

/// The end of the help of a format.
const FORMAT_EXAMPLES: &str = "\
Examples:
  bpfs format disk.img --blocks 64 --version 2
  bpfs format large.img --blocks 65536 --version 3

On a terminal, a file that has bytes and is not an image is erased only after a question.";

/// The end of the help of a run.
const RUN_EXAMPLES: &str = "\
Examples:
  bpfs run disk.img < script
  echo 'list /' | bpfs run disk.img

On a terminal, the lines can be typed; `help` lists them all, and Ctrl-D ends the run.";

/// The end of the help of a check.
const CHECK_EXAMPLES: &str = "\
Examples:
  bpfs check disk.img
  bpfs check disk.img > totals || echo 'not an image'";

/// The end of the help of a play.
const PLAY_EXAMPLES: &str = "\
Examples:
  bpfs play disk.img --seed 1 --count 1000
  bpfs play disk.img --seed 1 --count 0";

/// The end of the help of an export.
const EXPORT_EXAMPLES: &str = "\
Examples:
  bpfs export disk.img > script
  bpfs export disk.img | bpfs run large.img";

/// Defines the file that a program works on. Its name is not empty.
fn file<'a>(alloc: Global) -> Arg<'a>
    ensures { IsArgument file_rule result }
{
    Arg::new(alloc, "FILE")
        .help("The image file")
        .required(true)
        .value_parser(ValueParser::NonEmptyString)
}

/// Defines the number of blocks of a new file system.
fn blocks<'a>(alloc: Global) -> Arg<'a>
    ensures { IsArgument blocks_rule result }
{
    Arg::new(alloc, "blocks")
        .long("blocks")
        .value_name("N")
        .help("Size in blocks of 4 KiB, 8 to 65536")
        .required(true)
        .value_parser(value_parser!(u64).range(i64::from(MIN_BLOCKS)..=i64::from(MAX_FILE_BLOCKS)))
}

/// Defines the version of a new file system: 1 if the arguments give none.
fn version<'a>(alloc: Global) -> Arg<'a>
    ensures { IsArgument version_rule result }
{
    Arg::new(alloc, "version")
        .long("version")
        .value_name("V")
        .help("Version of the format, 1 to 3: 2 has larger files and a snapshot, 3 also attributes")
        .default_value("1")
        .value_parser(value_parser!(u64).range(1..=3))
}

/// Defines the seed from which the operations of a play are made: any 64-bit number.
fn seed<'a>(alloc: Global) -> Arg<'a>
    ensures { IsArgument seed_rule result }
{
    Arg::new(alloc, "seed")
        .long("seed")
        .value_name("S")
        .help("Seed of the pseudo-random operations")
        .required(true)
        .value_parser(value_parser!(u64))
}

/// Defines the number of operations of a play.
fn count<'a>(alloc: Global) -> Arg<'a>
    ensures { IsArgument count_rule result }
{
    Arg::new(alloc, "count")
        .long("count")
        .value_name("C")
        .help("Number of operations, at most 1000000")
        .required(true)
        .value_parser(value_parser!(u64).range(0..=i64::from(MAX_TURNS)))
}

fn format_command<'a>(alloc: Global) -> Result<Command<'a>, AllocError>
    ensures { IfOk result (IsCommand format_app) }
{
    Command::new(alloc, "format")
        .about("Make FILE an empty file system, erasing what it held")
        .after_help(FORMAT_EXAMPLES)
        .arg(file(alloc))?
        .arg(blocks(alloc))?
        .arg(version(alloc))
}

fn run_command<'a>(alloc: Global) -> Result<Command<'a>, AllocError>
    ensures { IfOk result (IsCommand run_app) }
{
    Command::new(alloc, "run")
        .about("Run the script on standard input against FILE, one reply a line")
        .after_help(RUN_EXAMPLES)
        .arg(file(alloc))
}

fn check_command<'a>(alloc: Global) -> Result<Command<'a>, AllocError>
    ensures { IfOk result (IsCommand check_app) }
{
    Command::new(alloc, "check")
        .about("Verify FILE (read-only) and print its totals")
        .after_help(CHECK_EXAMPLES)
        .arg(file(alloc))
}

fn play_command<'a>(alloc: Global) -> Result<Command<'a>, AllocError>
    ensures { IfOk result (IsCommand play_app) }
{
    Command::new(alloc, "play")
        .about("Run pseudo-random calls and power cuts over FILE, without changing it")
        .after_help(PLAY_EXAMPLES)
        .arg(file(alloc))?
        .arg(seed(alloc))?
        .arg(count(alloc))
}

fn export_command<'a>(alloc: Global) -> Result<Command<'a>, AllocError>
    ensures { IfOk result (IsCommand export_app) }
{
    Command::new(alloc, "export")
        .about("Print a script that recreates all files of FILE")
        .after_help(EXPORT_EXAMPLES)
        .arg(file(alloc))
}

fn bare<'a>(alloc: Global) -> Command<'a>
    ensures { IsCommand bare_app result }
{
    Command::new(alloc, "bpfs")
        .about(
            "A crash-safe file system for byte-addressable persistent memory, over an image file",
        )
        .after_help(EXAMPLES)
        .subcommand_required(true)
}

/// Makes the command, with one subcommand for each program.
pub(crate) fn command<'a>(alloc: Global) -> Result<Command<'a>, AllocError>
    ensures { IfOk result (IsCommand bpfs_app) }
{
    bare(alloc)
        .subcommand(format_command(alloc)?)?
        .subcommand(run_command(alloc)?)?
        .subcommand(check_command(alloc)?)?
        .subcommand(play_command(alloc)?)?
        .subcommand(export_command(alloc)?)
}
