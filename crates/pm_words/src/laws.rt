//! Laws of words and bytes. Each law is the contract of a function that does nothing.

ghost use Rattle.pm_words.specs.Bytes.{word_bytes, word_of};
ghost use Rattle.std.specs.Prelude.{◌≡◌};

/// States that the bytes of a word make that word.
#[tactic(auto, using(crate::proofs::Bytes::word_of_bytes))]
pub fn word_from_bytes(word: u64)
    ensures { word_of (word_bytes word) ≡ word }
{}

/// States that eight bytes are those of the word that they make.
#[tactic(auto, using(crate::proofs::Bytes::bytes_word_of))]
pub fn bytes_from_word(bytes: &[u8; 8])
    ensures { word_bytes (word_of bytes.now) ≡ bytes.now }
{
    let _word = u64::from_le_bytes(*bytes);
}
