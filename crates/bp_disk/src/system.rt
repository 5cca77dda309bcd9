//! The calls to the system that a save makes.

ghost use Rattle.bp_disk.specs.Calls.{Call, number_of};
ghost use Rattle.bp_disk.specs.Calls.Call.{attached, flushed, flushed_names, linked_old, made, not_flushed, not_resized, partly_written, read, removed_old, removed_second, renamed_old, renamed_second, resized, seen_second, unflushable_names, written};
ghost use Rattle.std.specs.Prelude.{◌≡◌, ◌≢◌, ◌∷◌, IfOk, IfErr, List, MatchResult, OnErr, OnOk, true, false};

use crate::names::Names;
use std::alloc::Global;
use std::fs::{File, Metadata};
use std::io;
use std::path::PathBuf;

/// The calls to the system that a save makes, with a list of those that change anything.
///
/// What a clause says of the list is proved. That the system then did what the list says is trusted: each method names
/// the sentence of POSIX (2018), or of the manual of Linux, that is assumed.
pub(crate) trait System {
    /// The calls so far, the last one first.
    ghost calls: { Self → List Call };

    /// Returns what a path leads to.
    fn stat(&self, path: &str) -> io::Result<Metadata>;

    /// Returns what a path is the name of, if it is not a symbolic link.
    fn stat_link(&self, path: &str) -> io::Result<Metadata>;

    /// Returns a path with all symbolic links resolved.
    fn canonicalize(&self, alloc: Global, path: &str) -> io::Result<PathBuf>;

    /// Opens a directory, so that it can be flushed.
    fn open_folder(&self, path: &str) -> io::Result<File>;

    /// Opens a file that exists, for reading and writing. It is not written.
    fn open_existing(&self, path: &str) -> io::Result<File>;

    /// Notes that a file was attached: FILE leads to it, and it is durable.
    fn attach(&mut self, file: &File)
        ensures { calls self.new ≡ attached (number_of file.now) ∷ calls self.old };

    /// Reads bytes from a file, from byte `at` on, as many as fit into `into`.
    ///
    /// POSIX, `write`: "Any successful read() from each byte position in the file that was modified by that write shall
    /// return the data specified by the write() for that position until such byte positions are again modified."
    fn read(&mut self, file: &File, into: &mut [u8], at: u64) -> io::Result<()>
        ensures done { OnOk result (calls self.new ≡ read (number_of file.now) at into.new ∷ calls self.old) }
        ensures failed { OnErr result (calls self.new ≡ calls self.old) };

    /// Writes bytes to a file, from byte `at` on.
    ///
    /// POSIX, `write`: "After a write() to a regular file has successfully returned: Any successful read() from each
    /// byte position in the file that was modified by that write shall return the data specified by the write()".
    fn write(&mut self, file: &File, from: &[u8], at: u64) -> io::Result<()>
        ensures done { OnOk result (calls self.new ≡ written (number_of file.now) at from.now ∷ calls self.old) }
        ensures failed { OnErr result
            (calls self.new ≡ partly_written (number_of file.now) at from.now ∷ calls self.old) };

    /// Sets the length of a file.
    ///
    /// POSIX, `ftruncate`: "If the size of the file previously exceeded length, the extra data shall no longer be
    /// available to reads on the file." "If the file size is increased, the extended area shall appear as if it were
    /// zero-filled."
    fn set_len(&mut self, file: &File, length: u64) -> io::Result<()>
        ensures done { OnOk result (calls self.new ≡ resized (number_of file.now) length ∷ calls self.old) }
        ensures failed { OnErr result (calls self.new ≡ not_resized (number_of file.now) length ∷ calls self.old) };

    /// Makes durable what was written to a file, its length and its other attributes.
    ///
    /// Linux, `fsync`: it "transfers [..] all modified in-core data of [..] the file referred to by the file descriptor
    /// fd to the disk device [..] so that all changed information can be retrieved even if the system crashes or is
    /// rebooted."
    fn flush(&mut self, file: &File) -> io::Result<()>
        ensures done { OnOk result (calls self.new ≡ flushed (number_of file.now) ∷ calls self.old) }
        ensures failed { OnErr result (calls self.new ≡ not_flushed (number_of file.now) ∷ calls self.old) };

    /// Makes durable what was written to a file, and its length.
    ///
    /// Linux, `fdatasync`: it is as `fsync`, "but does not flush modified metadata unless that metadata is needed in
    /// order to allow a subsequent data retrieval to be correctly handled."
    fn flush_data(&mut self, file: &File) -> io::Result<()>
        ensures done { OnOk result (calls self.new ≡ flushed (number_of file.now) ∷ calls self.old) }
        ensures failed { OnErr result (calls self.new ≡ not_flushed (number_of file.now) ∷ calls self.old) };

    /// Makes durable what the names in a directory lead to. The result is false if the file system cannot do this.
    ///
    /// Linux, `fsync`: "Calling fsync() does not necessarily ensure that the entry in the directory containing the file
    /// has also reached disk. For that an explicit fsync() on a file descriptor for the directory is also needed."
    fn flush_names(&mut self, folder: &File) -> io::Result<bool>
        ensures done { IfOk result (λ able. able ≡ true → calls self.new ≡ flushed_names ∷ calls self.old) }
        ensures unable { IfOk result (λ able. able ≡ false → calls self.new ≡ unflushable_names ∷ calls self.old) }
        ensures failed { OnErr result (calls self.new ≡ calls self.old) };

    /// Makes an empty file under the second name, which only its owner may open, while another file is open.
    ///
    /// POSIX, `open`: "If O_CREAT and O_EXCL are set, open() shall fail if the file exists."
    fn make_second(&mut self, names: &Names, beside: &File) -> io::Result<File>
        ensures done { IfOk result (λ file. calls self.new ≡ made (number_of file) ∷ calls self.old) }
        ensures other { IfOk result (λ file. number_of file ≢ number_of beside.now) }
        ensures failed { OnErr result (calls self.new ≡ calls self.old) };

    /// Returns whether the second name is a name of this file, and no symbolic link to it.
    ///
    /// POSIX, `sys/stat.h`: "The st_ino and st_dev fields taken together uniquely identify the file within the system."
    fn has_second(&mut self, names: &Names, file: &File) -> io::Result<bool>
        ensures yes { IfOk result (λ is. is ≡ true → calls self.new ≡ seen_second (number_of file.now) ∷ calls self.old) }
        ensures no { IfOk result (λ is. is ≡ false → calls self.new ≡ calls self.old) }
        ensures failed { OnErr result (calls self.new ≡ calls self.old) };

    /// Gives FILE's file the old name, too.
    ///
    /// POSIX, `link`: "The link() function shall create a new link (directory entry) for the existing file". "If link()
    /// fails, no link shall be created".
    fn link_old(&mut self, names: &Names) -> io::Result<()>
        ensures done { OnOk result (calls self.new ≡ linked_old ∷ calls self.old) }
        ensures failed { OnErr result (calls self.new ≡ calls self.old) };

    /// Gives the second file the name FILE.
    ///
    /// POSIX, `rename`: "a link named new shall remain visible to other threads throughout the renaming operation and
    /// refer either to the file referred to by new or old before the operation began". "If the rename() function fails
    /// for any reason other than [EIO], any file named by new shall be unaffected."
    fn rename_second(&mut self, names: &Names) -> io::Result<()>
        ensures done { OnOk result (calls self.new ≡ renamed_second ∷ calls self.old) }
        ensures failed { OnErr result (calls self.new ≡ calls self.old) };

    /// Gives the file with the old name the second name. What is assumed is as for `rename_second`.
    fn rename_old(&mut self, names: &Names) -> io::Result<()>
        ensures done { OnOk result (calls self.new ≡ renamed_old ∷ calls self.old) }
        ensures failed { OnErr result (calls self.new ≡ calls self.old) };

    /// Removes the second name.
    ///
    /// POSIX, `unlink`: "The unlink() function shall remove a link to a file." If it fails, "the named file shall not
    /// be changed".
    fn remove_second(&mut self, names: &Names) -> io::Result<()>
        ensures done { OnOk result (calls self.new ≡ removed_second ∷ calls self.old) }
        ensures failed { OnErr result (calls self.new ≡ calls self.old) };

    /// Removes the old name. What is assumed is as for `remove_second`.
    fn remove_old(&mut self, names: &Names) -> io::Result<()>
        ensures done { OnOk result (calls self.new ≡ removed_old ∷ calls self.old) }
        ensures failed { OnErr result (calls self.new ≡ calls self.old) };
}
