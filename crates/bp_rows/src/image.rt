//! The words of FILE's bytes, the lowest byte first.

/// Returns the word at an index, 0 past the end.
pub fn word_at(bytes: &[u8], place: usize) -> u64 {
    let rest = bytes.get(place.saturating_mul(8)..).unwrap_or(&[]);
    match rest.first_chunk::<8>() {
        Some(word) => u64::from_le_bytes(*word),
        None => 0,
    }
}

/// Sets the word at an index. Past the end it sets none, and returns false.
pub fn set_word(bytes: &mut [u8], place: u64, value: u64) -> bool {
    let places = (bytes.len() / 8) as u64;
    if place >= places {
        return false;
    }
    let at = 8 * place as usize;
    bytes[at..at + 8].copy_from_slice(&value.to_le_bytes());
    true
}
