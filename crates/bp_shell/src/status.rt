//! The statuses with which programs end.

ghost use Rattle.bp_shell.specs.Statuses.{code_of, status_by};
ghost use Rattle.std.specs.Prelude.{◌≡◌};

use bp_session::Broken;

/// The status with which a program ends. The number of a variant is the exit status.
#[derive(Clone, Copy, Debug, PartialEq, Eq)]
pub enum Status {
    /// All was done, and the sink took the whole output.
    Done = 0,
    /// `run`, `check`, `play` or `export` finds no file of the name, and prints the line `err 34 nofile`.
    Missing = 1,
    /// The arguments are no command, or ask for help. The usage line is printed, and no file is opened.
    Usage = 2,
    /// `run` cannot read its source. The lines that were read before are answered.
    SourceFailed = 3,
    /// The sink does not take the output. The bytes that it took are a prefix of the output.
    SinkFailed = 4,
    /// FILE cannot be attached, read, written or flushed. The outcome of the program states the contents of FILE
    /// then.
    FilesFailed = 5,
    /// The source of `run` has more than 1,073,741,824 bytes. The lines before are answered.
    LongInput = 6,
    /// FILE exists, but is no file system. The printed line says why.
    Refused = 7,
    /// Allocation failed before a line was read or printed; but an `export` may have printed a prefix of its script.
    Memory = 8,
    /// `export` finds a path that no call can spell. Only the line `err 40 deep` is printed.
    Deep = 9,
}

impl Status {
    /// Returns the exit status.
    pub fn code(self) -> u8
        ensures { result ≡ code_of self }
    {
        self as u8
    }
}

impl From<Broken> for Status {
    ghost from_gives = { λ broken status. status ≡ status_by broken };

    fn from(broken: Broken) -> Status {
        match broken {
            Broken::Source => Status::SourceFailed,
            Broken::Sink => Status::SinkFailed,
            Broken::Files => Status::FilesFailed,
            Broken::LongInput => Status::LongInput,
        }
    }
}
