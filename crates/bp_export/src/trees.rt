//! The lines of a tree.

ghost use Rattle.std.specs.Prelude.{◌*◌, ◌++◌, ◌≡◌, ◌≤◌, ◌∷◌, All, IfOk, OnOk, length};
ghost use Rattle.bp_export.specs.Exports.{EndsExport, Goes};
ghost use Rattle.bp_export.specs.Held.{IsBack, KnowsAttributes, StandsHeld, ToursHeld, ToursItself, directory_calls, file_calls, held_lines};
ghost use Rattle.bp_export.specs.Report.{WritesInode};
ghost use Rattle.bp_export.specs.Walking.{Place, inside, itself};
ghost use Rattle.bp_layout.specs.Fields.{kind_word};
ghost use Rattle.bp_layout.specs.Inode.{IsDirectory, IsFile, kind_of, root_of, size_of};
ghost use Rattle.bp_layout.specs.Names.{AreCounts};
ghost use Rattle.bp_layout.specs.Tree.{IsSound};
ghost use Rattle.bp_layout.specs.WellFormed.{IsWellFormed};
ghost use Rattle.bp_layout.specs.Whole.{IsFileSystem};
ghost use Rattle.bp_layout.specs.Words.{block_count};
ghost use Rattle.bp_limits.specs.Limits.{block_inodes};
ghost use Rattle.bp_plain.specs.PlainTree.{FileTree};
ghost use Rattle.bp_plain.specs.Stands.{Stands};
ghost use Rattle.bp_script.specs.Export.{FitsText};
ghost use Rattle.pm_region.specs.Memory.{words_in};

use crate::attributes::{export_attributes, has_attributes};
use crate::depth::has_long_path;
use crate::entries::Entries;
use crate::fault::Fault;
use crate::files::export_file;
use crate::lines::report;
use crate::work::Work;
use bp_free::Counts;
use bp_io::Sink;
use bp_layout::Kind;
use bp_limits::{MAX_PATH, ROOT_INO};
use bp_plain::Call;
use bp_read::Tree;
use bp_read::inodes::get;
use pm_region::Region;
use std::alloc::{AllocError, Global};

/// Appends a `/` and a name to the text of a path.
fn go_down(path: &mut Vec<u8>, name: &[u8]) -> Result<(), AllocError>
    ensures { OnOk result (path.new.items ≡ path.old.items ++ 47 ∷ name.now) }
{
    path.push(b'/')?;
    path.extend_from_slice(name)
}

/// Writes the lines that make file `ino`, with this tree, at the current path.
///
/// # Errors
///
/// * `Sink`: the sink failed.
fn export_new<R: Region, K: Sink>(
    region: &R,
    ino: u32,
    tree: Tree,
    work: &mut Work,
    out: &mut K,
) -> Result<(), Fault>
    requires inode { WritesInode (words_in R.memory region.now) ino work.old.attributes }
    requires sound { IsSound (words_in R.memory region.now) tree.root tree.size }
    requires short { All FitsText (file_calls (R.memory region.now) ino tree work.old) }
    ensures goes { Goes (file_calls (R.memory region.now) ino tree work.old) result
        (held_lines work.old) (held_lines work.new) (K.view out.old) (K.view out.new) }
    ensures back { IsBack work.old work.new }
    ensures firsts { work.new.firsts ≡ work.old.firsts }
{
    export_file(
        region,
        tree,
        &work.path,
        &mut work.stretch,
        &mut work.replies,
        out,
    )?;
    export_attributes(
        region,
        ino,
        work.attributes,
        &work.path,
        &mut work.replies,
        out,
    )?;
    Ok(())
}

/// Writes the lines that make directory `ino` at the current path.
///
/// # Errors
///
/// * `Sink`: the sink failed.
fn export_directory<R: Region, K: Sink>(
    region: &R,
    ino: u32,
    work: &mut Work,
    out: &mut K,
) -> Result<(), Fault>
    requires inode { WritesInode (words_in R.memory region.now) ino work.old.attributes }
    requires short { All FitsText (directory_calls (R.memory region.now) ino work.old) }
    ensures goes { Goes (directory_calls (R.memory region.now) ino work.old) result
        (held_lines work.old) (held_lines work.new) (K.view out.old) (K.view out.new) }
    ensures back { IsBack work.old work.new }
    ensures firsts { work.new.firsts ≡ work.old.firsts }
{
    report(Call::Mkdir(&work.path), &mut work.replies, out)?;
    export_attributes(
        region,
        ino,
        work.attributes,
        &work.path,
        &mut work.replies,
        out,
    )?;
    Ok(())
}

/// Writes the lines of file `i`, with this tree, at the current path: those that make it, if that is its first path,
/// and else the line that links it to its first path.
///
/// # Errors
///
/// * `Memory`: allocation of memory for its first path failed.
/// * `Sink`: the sink failed.
fn export_name<R: Region, K: Sink>(
    alloc: Global,
    region: &R,
    ino: u32,
    tree: Tree,
    counts: &Counts,
    work: &mut Work,
    out: &mut K,
) -> Result<(), Fault>
    requires well_formed { IsWellFormed (words_in R.memory region.now) }
    requires file { IsFile (words_in R.memory region.now) ino }
    requires root { tree.root ≡ root_of (words_in R.memory region.now) ino }
    requires size { tree.size ≡ size_of (words_in R.memory region.now) ino }
    requires counts { AreCounts (words_in R.memory region.now) counts.now }
    requires inodes { length counts.now ≡ block_inodes * block_count (words_in R.memory region.now) }
    requires attributes { KnowsAttributes (words_in R.memory region.now) work.old }
    requires below { 1 ≤ length work.old.path.items }
    requires stands { let words = words_in R.memory region.now in
        (place : Place) × StandsHeld words counts.now (itself words ino) ino work.old place }
    ensures tours { ToursItself (words_in R.memory region.now) counts.now ino result
        work.old (K.view out.old) work.new (K.view out.new) }
    ensures back { IsBack work.old work.new }
{
    if counts.names(ino) <= 1 {
        return export_new(region, ino, tree, work, out);
    }
    if let Some(first) = work.firsts.get(ino) {
        let call = Call::Link {
            from: first,
            to: &work.path,
        };
        report(call, &mut work.replies, out)?;
        return Ok(());
    }
    work.firsts.add(alloc, ino, &work.path)?;
    export_new(region, ino, tree, work, out)
}

/// Writes the lines of the file or directory at the current path, which finds inode `i`, and returns its kind.
///
/// # Errors
///
/// As of `export_name`.
fn export_entry<R: Region, K: Sink>(
    alloc: Global,
    region: &R,
    ino: u32,
    counts: &Counts,
    work: &mut Work,
    out: &mut K,
) -> Result<Kind, Fault>
    requires well_formed { IsWellFormed (words_in R.memory region.now) }
    requires counts { AreCounts (words_in R.memory region.now) counts.now }
    requires inodes { length counts.now ≡ block_inodes * block_count (words_in R.memory region.now) }
    requires attributes { KnowsAttributes (words_in R.memory region.now) work.old }
    requires below { 1 ≤ length work.old.path.items }
    requires stands { let words = words_in R.memory region.now in
        (place : Place) × StandsHeld words counts.now (itself words ino) ino work.old place }
    ensures tours { ToursItself (words_in R.memory region.now) counts.now ino result
        work.old (K.view out.old) work.new (K.view out.new) }
    ensures kind { IfOk result (λ kind. kind_word kind ≡ kind_of (words_in R.memory region.now) ino) }
    ensures back { IsBack work.old work.new }
{
    let inode = get(region, ino);
    match inode.kind {
        Kind::File => export_name(alloc, region, ino, Tree::of(&inode), counts, work, out)?,
        Kind::Dir => export_directory(region, ino, work, out)?,
    }
    Ok(inode.kind)
}

/// Writes the lines of all files and directories below directory `i`, whose path is the current one.
///
/// # Errors
///
/// * `Memory`: allocation failed, for the entries of the directories on a path, or as of `export_name`.
/// * `Sink`: the sink failed.
fn export_below<R: Region, K: Sink>(
    alloc: Global,
    region: &R,
    ino: u32,
    counts: &Counts,
    work: &mut Work,
    out: &mut K,
) -> Result<(), Fault>
    requires well_formed { IsWellFormed (words_in R.memory region.now) }
    requires directory { IsDirectory (words_in R.memory region.now) ino }
    requires counts { AreCounts (words_in R.memory region.now) counts.now }
    requires inodes { length counts.now ≡ block_inodes * block_count (words_in R.memory region.now) }
    requires attributes { KnowsAttributes (words_in R.memory region.now) work.old }
    requires stands { (place : Place) × StandsHeld (words_in R.memory region.now) counts.now inside ino work.old place }
    ensures tours { ToursHeld (words_in R.memory region.now) counts.now inside ino result
        work.old (K.view out.old) work.new (K.view out.new) }
    ensures back { OnOk result (IsBack work.old work.new) }
{
    let entries = Entries::of(alloc, region, ino)?;
    let here = work.path.len();
    for k in 0..entries.len() {
        let (inode, name) = entries.at(k);
        go_down(&mut work.path, name)?;
        match export_entry(alloc, region, inode, counts, work, out)? {
            Kind::File => {}
            Kind::Dir => export_below(alloc, region, inode, counts, work, out)?,
        }
        work.path.truncate(here);
    }
    Ok(())
}

/// Writes the script that makes the tree of an image, without its snapshot. `counts` has the number of links of each
/// inode.
///
/// # Errors
///
/// * `Deep`: some path has more bytes than a call can spell. This is found before anything is written.
/// * `Memory`: allocation failed, for the names of the directories on a path, or for the first paths of files with
///   several links. The sink has taken a prefix of the script.
/// * `Sink`: the sink failed. It has taken a proper prefix of the script.
pub fn export<R: Region, K: Sink>(
    alloc: Global,
    region: &R,
    counts: &Counts,
    out: &mut K,
) -> Result<(), Fault>
    requires file_system { IsFileSystem (words_in R.memory region.now) }
    requires counts { AreCounts (words_in R.memory region.now) counts.now }
    requires inodes { length counts.now ≡ block_inodes * block_count (words_in R.memory region.now) }
    ensures { (tree : FileTree) → Stands (words_in R.memory region.now) tree
        → EndsExport tree result (K.view out.old) (K.view out.new) }
{
    if has_long_path(region, ROOT_INO, MAX_PATH) {
        return Err(Fault::Deep);
    }
    let attributes = has_attributes(region);
    let mut work = Work::new(alloc, attributes)?;
    export_attributes(region, ROOT_INO, attributes, b"/", &mut work.replies, out)?;
    export_below(alloc, region, ROOT_INO, counts, &mut work, out)?;
    work.replies.hand_over(out)?;
    Ok(())
}
