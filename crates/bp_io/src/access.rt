//! The access for which a file is attached.

/// The access for which a file is attached.
#[derive(Clone, Copy, Debug, PartialEq, Eq)]
pub enum Access {
    /// Read only. A file that may not be written can be attached so.
    Read,
    /// Read and write.
    Write,
    /// Read and write; a name that does not exist gets an empty file.
    Make,
}

impl Access {
    ghost use Rattle.std.specs.Prelude.{◌≡◌};
    ghost use Rattle.bp_io.specs.Files.{makes, may_change};

    /// Returns whether an attached file may be written.
    pub fn may_change(self) -> bool
        ensures { result ≡ may_change self }
    {
        match self {
            Access::Read => false,
            Access::Write | Access::Make => true,
        }
    }

    /// Returns whether a name that does not exist gets a file.
    pub fn makes(self) -> bool
        ensures { result ≡ makes self }
    {
        match self {
            Access::Read | Access::Write => false,
            Access::Make => true,
        }
    }
}
