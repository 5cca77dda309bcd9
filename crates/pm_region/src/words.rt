//! What logs do to words, for the implementations of regions.

ghost use Rattle.std.specs.Prelude.{◌≡◌, ◌+◌, ◌≤◌, [], ◌∷◌, length, slice_index, slice_set};
ghost use Rattle.pm_epochs.specs.Log.{words_after, word_after, IsStoredIn};
ghost use Rattle.pm_epochs.specs.May.{AnyAt, EachMay};
ghost use Rattle.pm_epochs.specs.Replay.{stores_of};
ghost use Rattle.pm_region.specs.Memory.{stores_from};

use pm_epochs::{Event, Keeper};

fn set_word(words: &mut [u64], word: u64, value: u64)
    ensures { words.new ≡ slice_set words.old word value }
{
    if (word as usize) < words.len() {
        words[word as usize] = value;
    }
}

/// Sets the words from `first` on to these values.
pub fn set_words(words: &mut [u64], first: u64, values: &[u64])
    requires { first + length values.now ≤ length words.old }
    ensures { words.new ≡ words_after words.old (stores_from first values.now) }
{
    let start = first as usize;
    for i in 0..values.len() {
        words[start + i] = values[i];
    }
}

/// Applies one event to the words.
pub fn apply_event(words: &mut [u64], event: Event)
    ensures { words.new ≡ words_after words.old (event ∷ []) }
{
    match event {
        Event::Store { word, value } => set_word(words, word, value),
        Event::Barrier => {}
        Event::CallEnd => {}
    }
}

/// Applies the stores of a log to the words.
pub fn apply(words: &mut [u64], events: &[Event])
    ensures { words.new ≡ words_after words.old events.now }
{
    for event in events {
        apply_event(words, *event);
    }
}

/// Returns one word after the stores of a log, from its value before.
pub fn apply_to_word(base: u64, events: &[Event], word: u64) -> u64
    ensures { result ≡ word_after base events.now word }
{
    let mut now = base;
    for event in events {
        if let Event::Store { word: place, value } = *event {
            if place == word {
                now = value;
            }
        }
    }
    now
}

/// Applies those stores of a log that survive.
pub fn apply_kept(words: &mut [u64], events: &[Event], epoch: usize, mask: &[bool])
    ensures { words.new ≡ words_after words.old (stores_of epoch mask.now events.now) }
{
    let mut keeper = Keeper { epoch, mask };
    for event in events {
        let kept = keeper.keeps(*event);
        if kept {
            apply_event(words, *event);
        }
    }
}

/// Restores the words to those of `from`. They differ from these at most where the log has a store.
pub fn put_back(words: &mut [u64], from: &[u64], events: &[Event])
    requires { EachMay (AnyAt (IsStoredIn events.now)) from.now words.old }
    ensures { words.new ≡ from.now }
{
    for event in events {
        match event {
            Event::Store { word, .. } => put_back_word(words, from, *word),
            Event::Barrier => {}
            Event::CallEnd => {}
        }
    }
}

/// Restores one word. An index past the end is ignored.
fn put_back_word(words: &mut [u64], from: &[u64], word: u64)
    requires { length words.old ≡ length from.now }
    ensures { words.new ≡ slice_set words.old word (slice_index from.now word) }
{
    if let Some(value) = from.get(word as usize) {
        set_word(words, word, *value);
    }
}
