//! Reading of arguments.

ghost use Rattle.std.specs.Prelude.{◌≡◌, IfErr, IfOk, IsSome, OnOk, codes, map, ℕ};
ghost use Rattle.bp_command.specs.Commands.{HasMet, IsRight, IsTaken};
ghost use Rattle.bp_command.specs.Programs.{AsksForVersion, GivesNumber, HasNumber, HasValues, HasNumbersInRange, Names, Requests, first_version, last_version, program_of};
ghost use Rattle.clap.specs.Words.{first_of, found_of, rows_of};

use crate::laws::taken_words_have_values;
use crate::subcommands::command;
use bp_limits::Version;
use clap::ArgMatches;
use clap::error::{Error, ErrorKind};
use std::alloc::Global;

/// A program that arguments ask for.
#[derive(Clone, Copy, Debug, PartialEq, Eq)]
pub enum Program<'a> {
    /// Formats a file as a file system of 8 to 65,536 blocks.
    Format {
        /// The name of the file.
        name: &'a str,
        /// The number of blocks.
        blocks: u32,
        /// The version: 1 if the arguments give none.
        version: Version,
    },
    /// Serves a script over a file.
    Run {
        /// The name of the file.
        name: &'a str,
    },
    /// Checks whether a file is a file system, and prints its totals.
    Check {
        /// The name of the file.
        name: &'a str,
    },
    /// Makes calls and crashes on a file system in memory, and prints their outcome.
    Play {
        /// The name of the file.
        name: &'a str,
        /// The number from which the operations are made.
        seed: u64,
        /// The number of operations, at most 1,000,000.
        count: u32,
    },
    /// Writes the script that makes the tree of a file.
    Export {
        /// The name of the file.
        name: &'a str,
    },
}

/// The reason for which arguments cannot be read.
#[derive(Debug, Drop)]
pub enum WordsFault {
    /// They ask for no program, for this reason.
    Usage(Error),
    /// Allocation failed.
    Memory,
}

/// Finds the subcommand that the arguments name, with its values.
fn matches<'a>(alloc: Global, words: &'a [&'a str]) -> Result<ArgMatches<'a>, WordsFault>
    ensures matches { IfOk result (HasMet (map (λ word. word.now) words.now)) }
    ensures taken { OnOk result (IsTaken (map (λ word. word.now) words.now)) }
    ensures usage { IfErr result (IsRight (map (λ word. word.now) words.now)) }
{
    let command = match command(alloc) {
        Ok(command) => command,
        Err(_) => return Err(WordsFault::Memory),
    };
    match command.try_get_matches_from(words) {
        Ok(matches) => Ok(matches),
        Err(error) => match error.kind() {
            ErrorKind::OutOfMemory => Err(WordsFault::Memory),
            _ => Err(WordsFault::Usage(error)),
        },
    }
}

/// Returns the name of the file.
fn name_of<'a>(values: &ArgMatches<'a>) -> &'a str
    requires { IsSome (first_of (codes "FILE") (rows_of (found_of values.now))) }
    ensures { first_of (codes "FILE") (rows_of (found_of values.now)) ≡ Some result.now }
{
    match values.get_str("FILE") {
        Some(name) => name,
        None => unreachable!(),
    }
}

/// Returns the number that an option is given. `clap` accepts it only in its range.
fn number_of(values: &ArgMatches<'_>, option: &str) -> u64
    requires { (least : ℕ) × (most : ℕ) × HasNumber option.now least most (rows_of (found_of values.now)) }
    ensures { let rows = rows_of (found_of values.now) in
        (least most : ℕ) → HasNumber option.now least most rows → GivesNumber option.now least most rows result }
{
    match values.get_one::<u64>(option) {
        Some(number) => number,
        None => unreachable!(),
    }
}

/// Returns the version that a format is given, or version 1.
fn version_of(values: &ArgMatches<'_>) -> Version
    requires { HasNumber (codes "version") first_version last_version (rows_of (found_of values.now)) }
    ensures { AsksForVersion (rows_of (found_of values.now)) result }
{
    Version::numbered(number_of(values, "version") as u8)
}

/// Returns the program that a subcommand with its values asks for.
fn program_named<'a>(verb: &str, values: &ArgMatches<'a>) -> Program<'a>
    requires { HasValues verb.now (rows_of (found_of values.now)) }
    ensures names { Names verb.now (rows_of (found_of values.now)) (program_of result) }
    ensures range { HasNumbersInRange (program_of result) }
{
    let name = name_of(values);
    match verb {
        "format" => Program::Format {
            name,
            blocks: number_of(values, "blocks") as u32,
            version: version_of(values),
        },
        "run" => Program::Run { name },
        "check" => Program::Check { name },
        "play" => Program::Play {
            name,
            seed: number_of(values, "seed"),
            count: number_of(values, "count") as u32,
        },
        "export" => Program::Export { name },
        _ => unreachable!(),
    }
}

/// Reads the program that the arguments ask for. The first argument is the name under which the program was called.
///
/// # Errors
///
/// * `Usage`: `clap` does not accept the arguments as a command of the program, or they ask for help.
/// * `Memory`: allocation failed.
pub fn read_words<'a>(alloc: Global, words: &'a [&'a str]) -> Result<Program<'a>, WordsFault>
    ensures asks { IfOk result (λ program. Requests (map (λ word. word.now) words.now) (program_of program)) }
    ensures range { IfOk result (λ program. HasNumbersInRange (program_of program)) }
    ensures usage { IfErr result (IsRight (map (λ word. word.now) words.now)) }
{
    let found = matches(alloc, words)?;
    taken_words_have_values();
    match found.subcommand() {
        Some((verb, values)) => Ok(program_named(verb, values)),
        None => unreachable!(),
    }
}
