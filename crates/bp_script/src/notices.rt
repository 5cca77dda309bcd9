//! The lines that the program prints, other than replies.

ghost use Rattle.bp_script.specs.Sayings.{clean_line, clean_text, notice_text};
ghost use Rattle.std.specs.Prelude.{drop, length, take, ◌+◌, ◌++◌, ◌≡◌, ◌≤◌};

use crate::pieces::{write_pair, write_pieces};

/// The room in bytes that suffices for every notice: five lines, each below 256 bytes.
pub const MAX_NOTICE: usize = 1_280;

/// A line that the program prints, other than replies.
#[derive(Clone, Copy, Debug, PartialEq, Eq)]
pub enum Notice {
    /// A file was formatted.
    Formatted {
        /// The number of its blocks.
        blocks: u32,
        /// The number of its free blocks.
        free: u32,
    },
    /// The file does not begin with the magic number of a file system.
    NotFormatted,
    /// No image has the size of the file.
    BadSize {
        /// The size in bytes.
        found: u64,
        /// The wanted size in bytes.
        wanted: u64,
    },
    /// The file is no well-formed image.
    Damaged {
        /// The number of a check that fails.
        check: u8,
        /// The index of the word of the image at which it fails.
        place: u64,
    },
    /// The file is a well-formed image.
    Clean {
        /// The number of its files.
        files: u64,
        /// The number of its directories, with the root directory.
        dirs: u64,
        /// The number of bytes of all its files.
        bytes: u128,
        /// The number of blocks in use, without the first.
        live: u32,
        /// The number of free blocks.
        free: u32,
    },
    /// The file does not exist.
    NoFile,
    /// A file or a directory has a path that is longer than a call accepts.
    Deep,
    /// The arguments are no command.
    Usage,
}

/// Writes a notice, one line with its newline, to the beginning of `into`, and returns its length in bytes.
pub fn announce(notice: &Notice, into: &mut [u8]) -> usize
    requires { MAX_NOTICE ≤ length into.old }
    ensures prefix { take result into.new ≡ notice_text notice.now }
    ensures whole { into.new ≡ notice_text notice.now ++ drop result into.old }
    ensures len { result ≡ length (notice_text notice.now) }
    ensures fits { result ≤ length into.new }
{
    match *notice {
        Notice::Formatted { blocks, free } => {
            write_pair(into, b"formatted ", blocks as u64, free as u64)
        }
        Notice::NotFormatted => write_pieces(into, &[b"err 30 notformatted\n"]),
        Notice::BadSize { found, wanted } => write_pair(into, b"err 31 badsize ", found, wanted),
        Notice::Damaged { check, place } => {
            write_pair(into, b"err 32 damaged ", check as u64, place)
        }
        Notice::Clean {
            files,
            dirs,
            bytes,
            live,
            free,
        } => announce_clean(files, dirs, bytes, live, free, into),
        Notice::NoFile => write_pieces(into, &[b"err 34 nofile\n"]),
        Notice::Deep => write_pieces(into, &[b"err 40 deep\n"]),
        Notice::Usage => write_pieces(
            into,
            &[
                b"usage: bpfs format FILE --blocks N [--version V] / run FILE / check FILE / play FILE --seed S --count C / export FILE\n",
            ],
        ),
    }
}

/// Writes the line with the totals of a clean image.
fn announce_clean(
    files: u64,
    dirs: u64,
    bytes: u128,
    live: u32,
    free: u32,
    into: &mut [u8],
) -> usize
    requires { MAX_NOTICE ≤ length into.old }
    ensures whole { into.new ≡ clean_text files dirs bytes live free ++ drop result into.old }
    ensures len { result ≡ length (clean_text files dirs bytes live free) }
{
    let mut file_digits = itoa::Buffer::new();
    let mut dir_digits = itoa::Buffer::new();
    let mut byte_digits = itoa::Buffer::new();
    let mut live_digits = itoa::Buffer::new();
    let mut free_digits = itoa::Buffer::new();
    write_clean(
        into,
        file_digits.format(files).as_bytes(),
        dir_digits.format(dirs).as_bytes(),
        byte_digits.format(bytes).as_bytes(),
        live_digits.format(live).as_bytes(),
        free_digits.format(free).as_bytes(),
    )
}

/// Writes the line with the totals of a clean image, from the digits of each number.
fn write_clean(
    into: &mut [u8],
    files: &[u8],
    dirs: &[u8],
    bytes: &[u8],
    live: &[u8],
    free: &[u8],
) -> usize
    requires { length files.now + length dirs.now + length bytes.now + length live.now + length free.now + 11
        ≤ length into.old }
    ensures whole { into.new ≡ clean_line files.now dirs.now bytes.now live.now free.now ++ drop result into.old }
    ensures len { result ≡ length (clean_line files.now dirs.now bytes.now live.now free.now) }
{
    write_pieces(
        into,
        &[
            b"clean ", files, b" ", dirs, b" ", bytes, b" ", live, b" ", free, b"\n",
        ],
    )
}
