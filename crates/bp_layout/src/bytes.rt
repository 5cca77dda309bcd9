//! Words as bytes.

ghost use Rattle.std.specs.Prelude.{◌*◌, ◌≡◌, ◌≤◌, length};
ghost use Rattle.bp_layout.specs.Bytes.{stored_bytes};

/// Words that are converted to bytes at once. The number is known at compile time, so the conversion takes a few wide
/// moves.
const LINE: usize = 8;

/// Converts the words of a line to bytes.
fn unpack_line(words: &[u64], into: &mut [u8])
    requires words { length words.now ≡ 8 }
    requires into { length into.old ≡ 64 }
    ensures { into.new ≡ stored_bytes words.now 0 64 }
{
    let mut line = [0; LINE];
    line.copy_from_slice(words);
    for i in 0..LINE {
        into[8 * i..8 * i + 8].copy_from_slice(&line[i].to_le_bytes());
    }
}

/// Converts fewer words than a line has to bytes, as many as fit into `into`.
fn unpack_few(words: &[u64], into: &mut [u8])
    requires { length into.old ≤ 8 * length words.now }
    ensures { into.new ≡ stored_bytes words.now 0 (length into.old) }
{
    let end = into.len();
    for i in 0..end / 8 {
        into[8 * i..8 * i + 8].copy_from_slice(&words[i].to_le_bytes());
    }
    let done = end - end % 8;
    if done < end {
        let bytes = words[done / 8].to_le_bytes();
        into[done..end].copy_from_slice(&bytes[..end - done]);
    }
}

/// Converts words to bytes, the lowest byte of each word first, as many as fit into `into`.
pub fn unpack(words: &[u64], into: &mut [u8])
    requires { length into.old ≤ 8 * length words.now }
    ensures { into.new ≡ stored_bytes words.now 0 (length into.old) }
{
    let end = into.len();
    let lines = end / (8 * LINE);
    for line in 0..lines {
        let word = LINE * line;
        unpack_line(
            &words[word..word + LINE],
            &mut into[8 * word..8 * (word + LINE)],
        );
    }
    let word = LINE * lines;
    unpack_few(&words[word..], &mut into[8 * word..end]);
}
