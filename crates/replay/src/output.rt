// The answers, written in pieces. They are kept until there is no room for one more or another read is due, so that whoever waits for an answer before he
// writes the next line gets it.
ghost use Rattle.std.specs.Prelude.{◌≤◌};

use crate::{BUFFER_SIZE, Fault};
use buffers::parts;
use script_replay::answer::ANSWER_SIZE;
use std::io;

// The first `used` bytes of the answers are to be written. An array with a length, not a Vec: there is no heap, and memory is fixed.
#[derive(Drop)]
pub(crate) struct Output<W> {
    writer: W,
    answers: [u8; BUFFER_SIZE],
    used: usize,
    ghost fits: { used ≤ 65536 },
}

impl<W: io::Write> Output<W> {
    ghost use Rattle.std.specs.Prelude.{◌≡◌, ◌≤◌, length, take, IsOk, IfErr, OnOk};
    ghost use Rattle.std.specs.Io.KnownBytes.{Appends};
    ghost use Rattle.replay.specs.Turns.{RoomMade, Appended};

    pub(crate) fn new(writer: W) -> Self {
        Output {
            writer,
            answers: [0; BUFFER_SIZE],
            used: 0,
        }
    }

    // What is to be written is written, also by a writer that keeps bytes back.
    pub(crate) fn flush(&mut self) -> Result<(), Fault>
        ensures ok { OnOk result (self.new.used ≡ 0) }
        ensures bytes { OnOk result (Appends (W.contents self.old.writer) (W.contents self.new.writer) (take self.old.used self.old.answers)) }
        ensures answers { self.new.answers ≡ self.old.answers }
        ensures err { IfErr result (λ e. (e ≡ Fault.Write) × (self.new.used ≡ self.old.used)) }
    {
        self.writer
            .write_all(&self.answers[..self.used])
            .map_err(|_| Fault::Write)?;
        self.writer.flush().map_err(|_| Fault::Write)?;
        self.used = 0;
        Ok(())
    }

    // Room for one more answer. Nothing is written where there is some.
    fn make_room(&mut self) -> Result<(), Fault>
        ensures ok { OnOk result (RoomMade self.old self.new) }
        ensures room { self.old.used ≤ 64512 → IsOk result }
        ensures answers { self.new.answers ≡ self.old.answers }
        ensures err { IfErr result (λ e. e ≡ Fault.Write) }
    {
        if BUFFER_SIZE - ANSWER_SIZE < self.used {
            return self.flush();
        }
        Ok(())
    }

    // An answer, behind those that are to be written.
    pub(crate) fn put(&mut self, answer: &[u8]) -> Result<(), Fault>
        requires { length answer.now ≤ 1024 }
        ensures ok { OnOk result (Appended self.old self.new answer.now) }
        ensures room { self.old.used ≤ 64512 → IsOk result }
        ensures err { IfErr result (λ e. e ≡ Fault.Write) }
    {
        self.make_room()?;
        parts::paste(&mut self.answers, self.used, answer);
        self.used += answer.len();
        Ok(())
    }
}
