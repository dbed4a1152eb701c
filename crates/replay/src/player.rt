// A whole script: the first line, then each other on card and chip.
use crate::Fault;
use crate::input::Input;
use crate::line::Line;
use crate::output::Output;
use script_replay::answer::ANSWER_SIZE;
use script_replay::header::ScriptHeader;
use script_replay::{answer, areas, header, step};
use std::io;

#[derive(Drop)]
pub(crate) struct Player<R, W> {
    pub(crate) input: Input<R>,
    output: Output<W>,
    line: Line,
}

impl<R: io::Read, W: io::Write> Player<R, W> {
    ghost use Rattle.std.specs.Prelude.{◌≡◌, false, ◌≤◌, ◌<◌, [], IsOk, IfOk, OnOk};
    ghost use Rattle.script_replay.specs.Script.{err_syntax, answer_line};
    ghost use Rattle.script_replay.specs.Replay.{step};
    ghost use Rattle.replay.specs.Turns.{text, Taken, Waits, Appended};

    pub(crate) fn new(input: R, output: W) -> Self {
        Player {
            input: Input::new(input),
            output: Output::new(output),
            line: Line::new(),
        }
    }

    // More of the line from what was read, or another read where that is used up, once the answers so far are written. Whether its newline has come.
    fn gather_some(&mut self) -> Result<bool, Fault>
        ensures taken { self.old.input.from < self.old.input.to → IfOk result (Taken self.old.input self.new.input self.old.line self.new.line) }
        ensures answers { self.old.input.from < self.old.input.to → IsOk result × (self.new.output ≡ self.old.output) }
        ensures waits { self.old.input.to ≤ self.old.input.from → Waits result self.old.line self.new.line }
        ensures flushed { self.old.input.to ≤ self.old.input.from → OnOk result (self.new.output.used ≡ 0) }
        ensures kept { self.new.output.answers ≡ self.old.output.answers }
    {
        if self.input.to <= self.input.from {
            self.output.flush()?;
            self.input.refill()?;
            return Ok(false);
        }
        Ok(self.input.take_part(&mut self.line))
    }

    // Up to a newline or the end of the input: whether there is one more. What came before a read that failed is none. A proved loop has to end, and nothing
    // says that a line does: so its turns are as many as no run uses up.
    fn next_line(&mut self) -> Result<bool, Fault>
        ensures line { IfOk result (λ there. there ≡ false → text self.new.line ≡ []) }
        ensures kept { self.new.output.answers ≡ self.old.output.answers }
    {
        self.line.len = 0;
        let mut whole = false;
        for _ in 0..u64::MAX {
            if whole || self.input.ended {
                break;
            }
            whole = self.gather_some()?;
        }
        Ok(self.line.is_there(whole))
    }

    // The line that is held is carried out, and its answer put behind the others.
    fn play_line(&mut self, kv: &mut [u8], rbp: &mut [u8], device_key: &[u8]) -> Result<(), Fault>
        ensures input { self.new.input ≡ self.old.input }
        ensures appended { OnOk result (Appended self.old.output self.new.output (step kv.old rbp.old device_key.now (text self.old.line)).answer) }
        ensures room { self.old.output.used ≤ 64512 → IsOk result }
        ensures rbp_after { record { kv = kv.new; rbp = rbp.new } ≡ (step kv.old rbp.old device_key.now (text self.old.line)).after }
    {
        let mut answer = [0u8; ANSWER_SIZE];
        let n = step::step(kv, rbp, device_key, self.line.text(), &mut answer);
        self.output.put(&answer[..n])
    }

    // The lines after the first, on a card and a chip that start empty.
    fn play_lines(&mut self, header: &ScriptHeader) -> Result<(), Fault>
        requires { header.now.slots ≤ 64 }
    {
        let mut kv = [0u8; areas::MAX_KV];
        let mut rbp = [0u8; areas::MAX_RBP];
        let sizes = areas::area_sizes(header.slots);
        // As in `next_line`: nothing says that a script ends.
        for _ in 0..u64::MAX {
            if !self.next_line()? {
                break;
            }
            self.play_line(&mut kv[..sizes.kv], &mut rbp[..sizes.rbp], &header.key)?;
        }
        Ok(())
    }

    // 02: "a bad first line, or empty input, prints that and stops".
    fn play_unreadable(&mut self) -> Result<(), Fault>
        ensures input { self.new.input ≡ self.old.input }
        ensures appended { OnOk result (Appended self.old.output self.new.output (answer_line err_syntax [])) }
        ensures room { self.old.output.used ≤ 64512 → IsOk result }
    {
        let mut answer = [0u8; ANSWER_SIZE];
        let n = answer::put_unreadable(&mut answer);
        self.output.put(&answer[..n])
    }

    pub(crate) fn play(&mut self) -> Result<(), Fault> {
        self.next_line()?;
        match header::read_header(self.line.text()) {
            Some(header) => self.play_lines(&header)?,
            None => self.play_unreadable()?,
        }
        self.output.flush()
    }
}
