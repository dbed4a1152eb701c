// The script, read in pieces.
ghost use Rattle.std.specs.Prelude.{◌≤◌};

use crate::line::Line;
use crate::{BUFFER_SIZE, Fault};
use script_replay::gather;
use std::io;

// Of the bytes that were read last, those from `from` to `to` are not used yet. Behind an end nothing is read again. An array
// with two places, not a Vec: there is no heap, and memory is fixed.
#[derive(Drop)]
pub(crate) struct Input<R> {
    reader: R,
    chunk: [u8; BUFFER_SIZE],
    pub(crate) from: usize,
    pub(crate) to: usize,
    pub(crate) ended: bool,
    ghost in_order: { from ≤ to },
    ghost fits: { to ≤ 65536 },
}

impl<R: io::Read> Input<R> {
    ghost use Rattle.std.specs.Prelude.{◌≡◌, ◌==◌, IfErr, OnOk};
    ghost use Rattle.std.specs.Io.KnownBytes.{Consumes};
    ghost use Rattle.replay.specs.Turns.{unused, Taken};

    pub(crate) fn new(reader: R) -> Self {
        Input {
            reader,
            chunk: [0; BUFFER_SIZE],
            from: 0,
            to: 0,
            ended: false,
        }
    }

    // Another read, in place of the last.
    pub(crate) fn refill(&mut self) -> Result<(), Fault>
        ensures from { OnOk result (self.new.from ≡ 0) }
        ensures ended { OnOk result (self.new.ended ≡ (self.new.to == 0)) }
        ensures bytes { OnOk result (Consumes (R.remaining self.old.reader) (R.remaining self.new.reader) (unused self.new)) }
        ensures err { IfErr result (λ e. e ≡ Fault.Read) }
    {
        let to = self.reader.read(&mut self.chunk).map_err(|_| Fault::Read)?;
        self.from = 0;
        self.to = to;
        self.ended = to == 0;
        Ok(())
    }

    // More of a line, up to its newline; whether that has come.
    pub(crate) fn take_part(&mut self, line: &mut Line) -> bool
        ensures { Taken self.old self.new line.old line.new result }
    {
        let part = &self.chunk[self.from..self.to];
        let gathered = gather::gather(part, line.len, &mut line.bytes);
        self.from += gathered.taken;
        line.len = gathered.len;
        gathered.whole
    }
}
