//! Arguments that the command refuses, and requests for help.

use crate::same::same;
use bp_command::{WordsFault, mistake_line, read_words};
use std::alloc::Global;

/// Returns the line that reports the mistake in the arguments.
fn reported(alloc: Global, words: &[&str]) -> Option<String> {
    match read_words(alloc, words) {
        Err(WordsFault::Usage(mistake)) => mistake_line(alloc, &mistake).ok(),
        _ => None,
    }
}

/// Arguments that are refused, and the line that reports why.
const REFUSED: [(&[&str], &str); 12] = [
    (
        &["bpfs"],
        "'bpfs' requires a subcommand but one was not provided [subcommands: format, run, check, play, export, help]",
    ),
    (&["bpfs", "walk", "f"], "unrecognized subcommand 'walk'"),
    (
        &["bpfs", "run"],
        "the following required arguments were not provided: <FILE>",
    ),
    (&["bpfs", "run", "f", "g"], "unexpected argument 'g' found"),
    (
        &["bpfs", "check", ""],
        "a value is required for '<FILE>' but none was supplied",
    ),
    (
        &["bpfs", "format"],
        "the following required arguments were not provided: --blocks <N> <FILE>",
    ),
    (
        &["bpfs", "format", "f", "--blocks", "7"],
        "invalid value '7' for '--blocks <N>': 7 is not in 8..=65536",
    ),
    (
        &["bpfs", "format", "f", "--blocks", "65537"],
        "invalid value '65537' for '--blocks <N>': 65537 is not in 8..=65536",
    ),
    (
        &["bpfs", "format", "f", "--blocks", "eight"],
        "invalid value 'eight' for '--blocks <N>': invalid digit found in string",
    ),
    (
        &["bpfs", "format", "f", "--blocks", "8", "--version", "4"],
        "invalid value '4' for '--version <V>': 4 is not in 1..=3",
    ),
    (
        &["bpfs", "run", "f", "--version", "2"],
        "unexpected argument '--version' found",
    ),
    (&["bpfs", "a\nb"], "unrecognized subcommand 'a b'"),
];

#[test]
fn refuses_words(rt: HostRuntime) {
    for (words, line) in &REFUSED {
        same(&rt, reported(rt.alloc(), *words).as_deref(), Some(*line));
    }
}

#[test]
fn asks_for_help(rt: HostRuntime) {
    let rows = [
        ["bpfs", "help"].as_slice(),
        ["bpfs", "help", "run"].as_slice(),
        ["bpfs", "-h"].as_slice(),
        ["bpfs", "--help"].as_slice(),
        ["bpfs", "run", "--help"].as_slice(),
    ];
    for words in rows {
        match read_words(rt.alloc(), words) {
            Err(WordsFault::Usage(help)) => assert!(rt; !help.use_stderr()),
            _ => assert!(rt; false),
        }
    }
}
