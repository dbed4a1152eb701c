// A line as it comes, read by read. As much of it is kept as fits, and the rest is passed over.
ghost use Rattle.std.specs.Prelude.{◌≡◌, length, take};
ghost use Rattle.buffers.specs.Bytes.{zeros};
ghost use Rattle.script_replay.specs.Script.{at_front};
ghost use Rattle.script_replay.specs.Stream.{ends_line, taken, held, held_size};

use crate::step::LINE_LIMIT;
use buffers::parts;
use text::parts::NEWLINE;
use text::scan;

// One byte more than a line may have, so that what is kept of a longer one is too long.
pub const HELD_SIZE: usize = LINE_LIMIT + 1;

// How many bytes are held of the line, how many of the read were taken, and whether the line is whole: all three always, so no Option.
#[derive(Clone, Copy)]
pub struct Gathered {
    pub len: usize,
    pub taken: usize,
    pub whole: bool,
}

pub fn held_buffer() -> [u8; HELD_SIZE]
    ensures { result ≡ zeros held_size }
{
    [0; HELD_SIZE]
}

// Takes a read's bytes up to the first newline, behind the first len that are held; the newline is taken, and not held.
pub fn gather(part: &[u8], len: usize, line: &mut [u8]) -> Gathered
    ensures value { result ≡ record { len = length (held (length line.old) (take len line.old) part.now); taken = taken part.now; whole = ends_line part.now } }
    ensures line_after { line.new ≡ at_front (held (length line.old) (take len line.old) part.now) line.old }
{
    let end = scan::find(part, 0, part.len(), NEWLINE);
    let size = line.len();
    let at = len.min(size);
    let n = parts::copy_fitting(&part[0..end], &mut line[at..size]);
    if end < part.len() {
        return Gathered {
            len: at + n,
            taken: end + 1,
            whole: true,
        };
    }
    Gathered {
        len: at + n,
        taken: end,
        whole: false,
    }
}
