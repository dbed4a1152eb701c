// A line as it comes, as much of it as fits.
ghost use Rattle.std.specs.Prelude.{◌≤◌};

use script_replay::gather;
use script_replay::gather::HELD_SIZE;

// The first `len` bytes are held. An array with a length, not a Vec: there is no heap, and memory is fixed.
#[derive(Drop)]
pub(crate) struct Line {
    pub(crate) bytes: [u8; HELD_SIZE],
    pub(crate) len: usize,
    ghost fits: { len ≤ 1101 },
}

impl Line {
    ghost use Rattle.std.specs.Prelude.{◌≡◌, ◌||◌, ltb};
    ghost use Rattle.replay.specs.Turns.{text};

    pub(crate) fn new() -> Line {
        Line {
            bytes: gather::held_buffer(),
            len: 0,
        }
    }

    pub(crate) fn text(&self) -> &[u8]
        ensures { result.now ≡ text self.now }
    {
        &self.bytes[..self.len]
    }

    // Whether there is a line: the last may lack its newline.
    pub(crate) fn is_there(&self, whole: bool) -> bool
        ensures { result ≡ (whole || ltb 0 self.now.len) }
    {
        whole || 0 < self.len
    }
}
