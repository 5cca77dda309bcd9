//! The paths of a play.

ghost use Rattle.std.specs.Prelude.{◌≡◌, ◌≤◌};

/// A path of a play, at most six bytes.
#[derive(Clone, Copy)]
pub(crate) struct PlayPath {
    text: [u8; 6],
    len: usize,
    ghost fits: { len ≤ 6 },
}

impl PlayPath {
    ghost use Rattle.bp_play.specs.Paths.{play_path};
    ghost use Rattle.bp_play.specs.Turns.{dir_name, path_name};

    /// Makes the path of the directory that a drawn number selects.
    pub(crate) fn dir(number: u32) -> PlayPath
        ensures { play_path result ≡ dir_name number }
    {
        let digit = b'0' + (number % 4) as u8;
        PlayPath {
            text: [b'/', b'd', digit, 0, 0, 0],
            len: 3,
        }
    }

    /// Makes the path of the file that a drawn number selects.
    pub(crate) fn file(number: u32) -> PlayPath
        ensures { play_path result ≡ path_name number }
    {
        let digit = b'0' + (number / 8 % 8) as u8;
        let dir = (number % 5) as u8;
        if dir == 4 {
            PlayPath {
                text: [b'/', b'f', digit, 0, 0, 0],
                len: 3,
            }
        } else {
            PlayPath {
                text: [b'/', b'd', b'0' + dir, b'/', b'f', digit],
                len: 6,
            }
        }
    }

    /// Returns its bytes.
    pub(crate) fn as_bytes(&self) -> &[u8]
        ensures { result.now ≡ play_path self.now }
    {
        &self.text[..self.len]
    }
}
