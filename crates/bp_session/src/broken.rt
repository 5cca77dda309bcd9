//! Why serving ends before all is served.

/// The cause that ends serving before all is served.
#[derive(Clone, Copy, Debug, PartialEq, Eq)]
pub enum Broken {
    /// The source failed.
    Source,
    /// The sink failed: it did not take a reply whole.
    Sink,
    /// The files failed: a sync could not save.
    Files,
    /// The source has more than 1,073,741,824 bytes.
    LongInput,
}
