//! The events of a log.

ghost use Rattle.std.specs.Prelude.{◌≡◌};
ghost use Rattle.pm_epochs.specs.Kind.{event_kind, event_value, event_of};

/// An event that a processor issues to persistent memory.
#[derive(Clone, Copy, Debug, PartialEq, Eq)]
pub enum Event {
    /// One word takes a value. `word` counts words of 8 bytes from the start of the memory.
    Store { word: u64, value: u64 },
    /// Each store before the barrier reaches memory before any store after it.
    Barrier,
    /// The end-of-call marker. It does nothing to memory.
    CallEnd,
}

/// The kind of an event: all of it except the value that a store brings.
#[derive(Clone, Copy, Debug, PartialEq, Eq)]
pub enum EventKind {
    /// A store to this word.
    Store(u64),
    /// A barrier.
    Barrier,
    /// An end-of-call marker.
    CallEnd,
}

impl Event {
    /// Returns the event without the value that it stores.
    pub fn kind(self) -> EventKind
        ensures kind { result ≡ event_kind self }
        ensures whole { self ≡ event_of result (event_value self) }
    {
        match self {
            Event::Store { word, .. } => EventKind::Store(word),
            Event::Barrier => EventKind::Barrier,
            Event::CallEnd => EventKind::CallEnd,
        }
    }
}
