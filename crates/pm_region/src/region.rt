//! The calls of a region.

ghost use Rattle.std.specs.Prelude.{◌≡◌, ◌+◌, ◌^◌, ◌<◌, ◌≤◌, ◌↔◌, [], ◌∷◌, length, take, slice_get, slice_index, slice_index_or, slice_range, Some, IsOk, IfOk, OnOk, OnErr};
ghost use Rattle.pm_epochs.specs.declared.event.Event.TheVariants.{Store, Barrier, CallEnd};
ghost use Rattle.pm_epochs.specs.Kind.{event_of, value_at};
ghost use Rattle.pm_epochs.specs.Log.{barriers, call_ends, words_after};
ghost use Rattle.pm_epochs.specs.Replay.{IsRight, kept_calls};
ghost use Rattle.pm_region.specs.Epochs.{epoch_start};
ghost use Rattle.pm_region.specs.Memory.{Memory, crashed, current_words, room_in, drained, stores_from, AreInRow, AreWithin, Adds};

use pm_epochs::{BadChoice, Choice, Event, EventKind, Kept};

/// Number of words that are read one by one: those of the first cache line. A region may show other words there than
/// those that it has stored, which no slice of its storage could.
pub const HEAD_WORDS: u64 = 8;

/// The kind of an event of a log, and how many events from it on, itself included, store to consecutive words: 1 if it
/// is no store.
pub struct Row {
    /// The kind of the event.
    pub kind: EventKind,
    /// The number of events in the row.
    pub len: usize,
}

/// Words of 8 bytes that survive a crash, with the log of what was done to them since the last drain. Indices and
/// sizes are in words.
pub trait Region {
    ghost memory: { Self → Memory };

    /// Returns the number of words.
    fn words(&self) -> u64
        ensures count { result ≡ length (memory self.now).base }
        ensures few { length (memory self.now).base < 2 ^ 41 };

    /// Returns a word as the processor sees it.
    fn load(&self, word: u64) -> u64
        requires { word < length (memory self.now).base }
        ensures { result ≡ slice_index (current_words (memory self.now)) word };

    /// Returns the `count` words from `first` on, as the processor sees them. They are past the first `HEAD_WORDS`
    /// words, which are read by `load`.
    fn load_words(&self, first: u64, count: usize) -> &[u64]
        requires after_head { HEAD_WORDS ≤ first }
        requires in_range { first + count ≤ length (memory self.now).base }
        ensures { result.now ≡ slice_range (current_words (memory self.now)) first (first + count) };

    /// Returns a word past the first `HEAD_WORDS`, as the processor sees it. A region that shows other words there than
    /// it has stored returns it without a comparison.
    #[inline(always)]
    fn load_past_head(&self, word: u64) -> u64
        requires after_head { HEAD_WORDS ≤ word }
        requires in_range { word < length (memory self.now).base }
        ensures { result ≡ slice_index (current_words (memory self.now)) word }
    {
        let _words = self.words();
        self.load_words(word, 1)[0]
    }

    /// Sets a word, and appends the store to the log.
    fn store(&mut self, word: u64, value: u64)
        requires in_range { word < length (memory self.old).base }
        requires room { 0 < room_in (memory self.old) }
        ensures { Adds (memory self.old) (memory self.new) (Store word value ∷ []) };

    /// Sets a word past the first `HEAD_WORDS`, and appends the store to the log. A region that shows other words there
    /// than it has stored does so without a comparison.
    #[inline(always)]
    fn store_past_head(&mut self, word: u64, value: u64)
        requires after_head { HEAD_WORDS ≤ word }
        requires in_range { word < length (memory self.old).base }
        requires room { 0 < room_in (memory self.old) }
        ensures { Adds (memory self.old) (memory self.new) (Store word value ∷ []) }
    {
        self.store(word, value);
    }

    /// Sets the words from `first` on to these values, in order, and appends the stores to the log. They are past the
    /// first `HEAD_WORDS` words, which are set by `store`.
    fn store_words(&mut self, first: u64, values: &[u64])
        requires after_head { HEAD_WORDS ≤ first }
        requires in_range { first + length values.now ≤ length (memory self.old).base }
        requires room { length values.now ≤ room_in (memory self.old) }
        ensures { Adds (memory self.old) (memory self.new) (stores_from first values.now) }
    {
        let _words = self.words();
        for i in 0..values.len() {
            self.store(first + i as u64, values[i]);
        }
    }

    /// Separates stores: those before the barrier are written back before those after it. Takes one entry of the log.
    fn barrier(&mut self)
        requires { 0 < room_in (memory self.old) }
        ensures { Adds (memory self.old) (memory self.new) (Barrier ∷ []) };

    /// Ends a call with an end-of-call marker. Takes one entry of the log.
    fn end_call(&mut self)
        requires { 0 < room_in (memory self.old) }
        ensures { Adds (memory self.old) (memory self.new) (CallEnd ∷ []) };

    /// Waits until each store is written back, and empties the log.
    fn drain(&mut self)
        ensures { memory self.new ≡ drained (memory self.old) };

    /// Returns the number of events that still fit into the log.
    fn room(&self) -> usize
        ensures { result ≡ room_in (memory self.now) };

    /// Returns the number of events in the log. Each store of the log went to one of the region's words.
    fn event_count(&self) -> usize
        ensures count { result ≡ length (memory self.now).events }
        ensures few { result ≤ (memory self.now).capacity }
        ensures within { AreWithin (length (memory self.now).base) (memory self.now).events };

    /// Returns the kind of the log's event `i`, counted from 0, without the value of a store.
    fn kind(&self, i: usize) -> EventKind
        requires { i < length (memory self.now).events }
        ensures get { slice_get (memory self.now).events i ≡
            Some (event_of result (value_at (memory self.now).events i)) }
        ensures value { let event = event_of result (value_at (memory self.now).events i) in
            event ≡ slice_index_or (memory self.now).events i event };

    /// Returns a word as it was after the first `moment` events of the log. It may take time for each event of the log.
    fn word_at(&self, moment: usize, word: u64) -> u64
        requires moment { moment ≤ length (memory self.now).events }
        requires in_range { word < length (memory self.now).base }
        ensures { result ≡ slice_index (words_after (memory self.now).base (take moment (memory self.now).events)) word };

    /// Returns the log's event `i`, counted from 0. To find the value of a store may take time for each event of the
    /// log; `kind` does without the value.
    fn event(&self, i: usize) -> Event
        requires { i < length (memory self.now).events }
        ensures get { slice_get (memory self.now).events i ≡ Some result }
        ensures value { result ≡ slice_index_or (memory self.now).events i result }
    {
        let _count = self.event_count();
        match self.kind(i) {
            EventKind::Store(word) => Event::Store {
                word,
                value: self.word_at(i + 1, word),
            },
            EventKind::Barrier => Event::Barrier,
            EventKind::CallEnd => Event::CallEnd,
        }
    }

    /// Returns the kind of the log's event `first`, counted from 0, and a number of events from it on that store to
    /// consecutive words. The number may be less than there are.
    fn row(&self, first: usize) -> Row
        requires { first < length (memory self.now).events }
        ensures get { slice_get (memory self.now).events first ≡
            Some (event_of result.kind (value_at (memory self.now).events first)) }
        ensures some { 0 < result.len }
        ensures inside { first + result.len ≤ length (memory self.now).events }
        ensures row { AreInRow (memory self.now).events first result.len }
    {
        Row {
            kind: self.kind(first),
            len: 1,
        }
    }

    /// Returns the number of barriers before the event with this index.
    fn barriers_before(&self, moment: usize) -> usize
        requires { moment ≤ length (memory self.now).events }
        ensures { result ≡ barriers (take moment (memory self.now).events) }
    {
        let mut count = 0;
        for i in 0..moment {
            match self.kind(i) {
                EventKind::Store(_) => {}
                EventKind::Barrier => count += 1,
                EventKind::CallEnd => {}
            }
        }
        count
    }

    /// Returns the number of events before an epoch: those up to the barrier with the epoch's number, counted from 1.
    fn start_of_epoch(&self, epoch: usize) -> usize
        requires { epoch ≤ barriers (memory self.now).events }
        ensures { result ≡ epoch_start epoch (memory self.now).events }
    {
        let mut left = epoch;
        for i in 0..self.event_count() {
            if left == 0 {
                return i;
            }
            match self.kind(i) {
                EventKind::Store(_) => {}
                EventKind::Barrier => left -= 1,
                EventKind::CallEnd => {}
            }
        }
        self.event_count()
    }

    /// Returns a word as of the last drain. It may take time for each event of the log.
    fn base_word(&self, word: u64) -> u64
        requires { word < length (memory self.now).base }
        ensures { result ≡ slice_index (memory self.now).base word }
    {
        self.word_at(0, word)
    }

    /// Crashes, and goes on with the words that the choice leaves and an empty log.
    ///
    /// # Errors
    ///
    /// `BadChoice`: the crash point is not valid for the log; nothing changes.
    fn crash_to(&mut self, choice: &Choice) -> Result<Kept, BadChoice>
        ensures right { IsOk result ↔ IsRight (memory self.old).events choice.now.cut }
        ensures left { OnOk result (memory self.new ≡ crashed (memory self.old) choice.now.cut) }
        ensures kept { IfOk result (λ kept. kept.c ≡ kept_calls (memory self.old).events choice.now.cut) }
        ensures of { IfOk result (λ kept. kept.n ≡ call_ends (memory self.old).events) }
        ensures err { OnErr result (memory self.new ≡ memory self.old) };
}
