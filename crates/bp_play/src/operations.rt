//! The drawing of operations.

ghost use Rattle.std.specs.Prelude.{◌≡◌, ◌<◌, ◌%◌};
ghost use Rattle.bp_play.specs.Paths.{play_path};
ghost use Rattle.bp_play.specs.Turning.{IsDrawn};
ghost use Rattle.bp_play.specs.Turns.{dir_name, draw_of, path_name, turn};
ghost use Rattle.bp_play.specs.declared.sort.Sort.TheVariants.{Read, RenameDir, RenameFile, Truncate, Write};
ghost use Rattle.bp_replay.specs.Generator.{drawn, next_state};

use crate::paths::PlayPath;
use crate::sort::{Sort, sort_by};
use bp_replay::Generator;

/// The bound below which offsets, in bytes, are drawn.
const OFFSETS: u32 = 70_000;

/// The bound below which the number of bytes of a read is drawn, and one less than the number of bytes of a write.
pub(crate) const LENGTHS: u32 = 9_000;

/// The bound below which the sizes, in bytes, of truncated or lengthened files are drawn.
const SIZES: u32 = 100_000;

/// A call of a play.
#[derive(Clone, Copy)]
pub(crate) enum PlayCall {
    Create(PlayPath),
    Mkdir(PlayPath),
    Unlink(PlayPath),
    Rmdir(PlayPath),
    Read {
        path: PlayPath,
        offset: u64,
        len: usize,
    },
    /// Writes the same byte `len` times.
    Write {
        path: PlayPath,
        offset: u64,
        len: usize,
        byte: u8,
    },
    Truncate {
        path: PlayPath,
        size: u64,
    },
    Rename {
        from: PlayPath,
        to: PlayPath,
    },
}

/// An operation of a play.
#[derive(Clone, Copy)]
pub(crate) enum Turn {
    Call(PlayCall),
    /// A storm of this seed.
    Storm(u64),
}

/// Draws the path of a file.
fn file(generator: &mut Generator) -> PlayPath
    ensures path { play_path result ≡ path_name (drawn generator.old.state) }
    ensures state { generator.new.state ≡ next_state generator.old.state }
{
    PlayPath::file(generator.draw())
}

/// Draws the path of a directory.
fn dir(generator: &mut Generator) -> PlayPath
    ensures path { play_path result ≡ dir_name (drawn generator.old.state) }
    ensures state { generator.new.state ≡ next_state generator.old.state }
{
    PlayPath::dir(generator.draw())
}

/// Draws a number below a bound.
fn below(generator: &mut Generator, bound: u32) -> u32
    requires { 0 < bound }
    ensures number { result ≡ drawn generator.old.state % bound }
    ensures state { generator.new.state ≡ next_state generator.old.state }
{
    generator.draw() % bound
}

fn draw_read(generator: &mut Generator) -> Turn
    ensures { IsDrawn (draw_of Read generator.old.state) result generator.new.state }
{
    let path = file(generator);
    let offset = u64::from(below(generator, OFFSETS));
    let len = below(generator, LENGTHS) as usize;
    Turn::Call(PlayCall::Read { path, offset, len })
}

fn draw_write(generator: &mut Generator) -> Turn
    ensures { IsDrawn (draw_of Write generator.old.state) result generator.new.state }
{
    let path = file(generator);
    let offset = u64::from(below(generator, OFFSETS));
    let len = 1 + below(generator, LENGTHS) as usize;
    let byte = below(generator, 256) as u8;
    Turn::Call(PlayCall::Write {
        path,
        offset,
        len,
        byte,
    })
}

fn draw_truncate(generator: &mut Generator) -> Turn
    ensures { IsDrawn (draw_of Truncate generator.old.state) result generator.new.state }
{
    let path = file(generator);
    let size = u64::from(below(generator, SIZES));
    Turn::Call(PlayCall::Truncate { path, size })
}

fn draw_file_rename(generator: &mut Generator) -> Turn
    ensures { IsDrawn (draw_of RenameFile generator.old.state) result generator.new.state }
{
    let from = file(generator);
    let to = file(generator);
    Turn::Call(PlayCall::Rename { from, to })
}

fn draw_dir_rename(generator: &mut Generator) -> Turn
    ensures { IsDrawn (draw_of RenameDir generator.old.state) result generator.new.state }
{
    let from = dir(generator);
    let to = dir(generator);
    Turn::Call(PlayCall::Rename { from, to })
}

/// Draws the operation of a kind.
fn draw_by(sort: Sort, generator: &mut Generator) -> Turn
    ensures { IsDrawn (draw_of sort generator.old.state) result generator.new.state }
{
    match sort {
        Sort::Create => Turn::Call(PlayCall::Create(file(generator))),
        Sort::Mkdir => Turn::Call(PlayCall::Mkdir(dir(generator))),
        Sort::Write => draw_write(generator),
        Sort::Truncate => draw_truncate(generator),
        Sort::Unlink => Turn::Call(PlayCall::Unlink(file(generator))),
        Sort::RenameFile => draw_file_rename(generator),
        Sort::RenameDir => draw_dir_rename(generator),
        Sort::Rmdir => Turn::Call(PlayCall::Rmdir(dir(generator))),
        Sort::Read => draw_read(generator),
        Sort::Storm => Turn::Storm(u64::from(generator.draw())),
    }
}

/// Draws an operation.
pub(crate) fn draw_turn(generator: &mut Generator) -> Turn
    ensures { IsDrawn (turn generator.old.state) result generator.new.state }
{
    let sort = sort_by(generator.draw());
    draw_by(sort, generator)
}
