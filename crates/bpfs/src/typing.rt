//! Lines that are typed at a terminal: prompts, and help.

ghost use Rattle.bp_io.specs.Causes.{HasCause};
ghost use Rattle.bpfs.specs.Typing.{EndsLine, ReadsPastHelp, help_line, known_left};
ghost use Rattle.std.specs.Io.{ReadsAtMost};
ghost use Rattle.std.specs.Io.KnownBytes.{ReadConsumes};
ghost use Rattle.std.specs.Prelude.{◌≡◌, ◌↔◌, IfOk, IsTrue, take, true};

use bp_io::{Failed, Source};

/// What the terminal shows before the first prompt.
const GREETING: &str = "The line `help` lists the commands. Ctrl-D saves and ends.\n";

/// What the terminal shows before each line.
const PROMPT: &str = "bpfs> ";

/// The answer to the line `help`: fewer than 24 lines of fewer than 80 columns.
const COMMANDS: &str = "\
create PATH, mkdir PATH        make an empty file, an empty directory
unlink PATH, rmdir PATH        remove a link of a file, an empty directory
rename PATH NEWPATH            move a file or a directory
link PATH NEWPATH, links PATH  make a further link of a file; count its links
write PATH OFFSET HEX          write bytes, two digits each: 6869 is `hi`
batch PATH OFFSET HEX ..       write up to 16 pieces; a crash keeps all or none
truncate PATH SIZE             set the size of a file
read PATH OFFSET LENGTH        print bytes of a file
stat PATH, list PATH           print a size or a count of entries; the entries
setattr PATH NUMBER VALUE      set attribute 0, 1 or 2 (images of version 3)
attr PATH NUMBER               print an attribute
upgrade, upgrade 3             change the image to version 2, to version 3
snap, unsnap                   make, delete the snapshot of all files
sread .., sstat .., slist ..   as read, stat and list, from the snapshot
space                          count the free blocks, and those in use
sync                           make all changes durable, and save FILE
crash all, crash none          cut the power: keep all stores in the log, none
crash EVENTS EPOCH MASK        cut the power at this point of the log
storm SEED, cache SEED         cut the power at a pseudo-random point
log                            count events, barriers and calls in the log
Fields have one space between them. A path begins with `/`, and %20 is a space.
Ctrl-D saves and ends. Ctrl-C ends without saving what follows the last sync.
";

/// Returns whether a piece of the input is the line `help`.
fn is_help(piece: &[u8]) -> bool
    ensures { IsTrue result ↔ (piece.now ≡ help_line) }
{
    piece == b"help\n".as_slice()
}

/// Returns whether a piece of the input ends a line.
fn ends_line(piece: &[u8]) -> bool
    ensures { IsTrue result ↔ EndsLine piece.now }
{
    match piece.last() {
        Some(last) => *last == b'\n',
        None => false,
    }
}

/// Where prompts and help are shown.
#[derive(Clone, Copy)]
pub(crate) enum Prompts {
    /// Nowhere: the lines are not typed at a terminal.
    Nowhere,
    /// On standard error.
    Errors,
    /// On standard output.
    Output,
}

impl Prompts {
    ghost use Rattle.bpfs.specs.Typing.{ShowsAtTerminals};

    /// Returns where prompts are shown if these streams are terminals: somewhere if input and output are, and on
    /// standard error if that is one too.
    pub(crate) fn at(input: bool, output: bool, errors: bool) -> Prompts
        ensures { ShowsAtTerminals input output errors result }
    {
        if !input || !output {
            Prompts::Nowhere
        } else if errors {
            Prompts::Errors
        } else {
            Prompts::Output
        }
    }
}

/// A source, which may be lines that are typed at a terminal. If it is not, reads pass through it.
///
/// If it is, a prompt is shown before each read that begins a line, and the source does not pass on a line `help` that
/// is read by itself: the terminal shows the commands instead. A terminal gives one line in each read, unless a
/// program changed its mode.
#[derive(Drop)]
pub(crate) struct Typed<'a, S: Source, P: Print + Eprint> {
    source: S,
    screen: &'a P,
    prompts: Prompts,
    is_greeted: bool,
    begins_line: bool,
}

impl<'a, S: Source, P: Print + Eprint> Typed<'a, S, P> {
    /// Makes a source of another one, and of the streams on which prompts are shown.
    pub(crate) fn new(source: S, screen: &'a P, prompts: Prompts) -> Self
        ensures source { result.source ≡ source }
        ensures prompts { result.prompts ≡ prompts }
        ensures begins { result.begins_line ≡ true }
    {
        Typed {
            source,
            screen,
            prompts,
            is_greeted: false,
            begins_line: true,
        }
    }

    /// Returns the source below it.
    pub(crate) fn into_source(self) -> S
        ensures { result ≡ self.entry.source }
    {
        self.source
    }

    /// Shows a text, as far as the terminal takes it.
    fn show(&self, text: &str) {
        let _ = match self.prompts {
            Prompts::Nowhere => Ok(()),
            Prompts::Errors => eprint!(self.screen; "{text}"),
            Prompts::Output => print!(self.screen; "{text}"),
        };
    }

    /// Shows the prompt if a line begins.
    fn prompt(&mut self)
        ensures { self.new ≡ record self.old { is_greeted = true } }
    {
        if !self.is_greeted {
            self.show(GREETING);
            self.is_greeted = true;
        }
        if self.begins_line {
            self.show(PROMPT);
        }
    }

    /// Shows the prompt, and reads a piece.
    fn read_piece(&mut self, into: &mut [u8]) -> Result<usize, Failed>
        ensures bound { ReadsAtMost result into.new }
        ensures bytes { ReadConsumes (S.view self.old.source).left (S.view self.new.source).left result into.new }
        ensures cause { HasCause (S.view self.old.source).faults (S.view self.new.source).faults result }
        ensures prompts { self.new.prompts ≡ self.old.prompts }
        ensures begins { self.new.begins_line ≡ self.old.begins_line }
    {
        self.prompt();
        self.source.read(into)
    }

    /// Reads the next piece that is not the line `help`, and shows the commands for each that is.
    fn read_typed(&mut self, into: &mut [u8]) -> Result<usize, Failed>
        ensures bound { ReadsAtMost result into.new }
        ensures bytes { ReadsPastHelp self.old.begins_line (S.view self.old.source).left (S.view self.new.source).left
            result into.new }
        ensures cause { HasCause (S.view self.old.source).faults (S.view self.new.source).faults result }
        ensures prompts { self.new.prompts ≡ self.old.prompts }
        ensures begins { IfOk result (λ count. IsTrue self.new.begins_line ↔ EndsLine (take count into.new)) }
    {
        let mut count = self.read_piece(into)?;
        for _helps in 1..u64::MAX {
            if !self.begins_line || !is_help(&into[..count]) {
                break;
            }
            self.show(COMMANDS);
            count = self.read_piece(into)?;
        }
        if count == 0 {
            // The next prompt of the shell gets a line of its own.
            self.show("\n");
        }
        self.begins_line = ends_line(&into[..count]);
        Ok(count)
    }
}

/// What is left of a terminal's lines is not known; that of another source is.
impl<S: Source, P: Print + Eprint> Source for Typed<'_, S, P> {
    ghost view = { λ s. record {
      left = known_left s.prompts (S.view s.source).left;
      faults = (S.view s.source).faults;
    } };

    fn read(&mut self, into: &mut [u8]) -> Result<usize, Failed> {
        match self.prompts {
            Prompts::Nowhere => self.source.read(into),
            Prompts::Errors | Prompts::Output => self.read_typed(into),
        }
    }
}
