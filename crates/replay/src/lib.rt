// The player: a script is read from a reader, and each answer is written to a writer.
//
// No contract can say what the system reads or writes; of a reader and a writer whose bytes are known, `refill` and `flush` say which they move. What is
// proved here is that every function is safe and ends, and what the steps between such calls do with the buffers (`specs/Turns`). What the bytes mean is
// proved in `script_replay`: `gather` cuts what was read into lines, `read_header` reads the first, `step` carries out each other and makes its answer.
#![tactic(auto)]

mod input;
mod line;
mod output;
mod player;
#[cfg(test)]
mod tests;
mod unflushed;

ghost use Rattle.std.specs.Prelude.{◌≡◌, ◌≤◌};

use player::Player;
use std::io;
use unflushed::Unflushed;

// Both buffers have as many bytes.
const BUFFER_SIZE: usize = 65536;

// Why a script isn't played to its end.
#[derive(Clone, Copy)]
enum Fault {
    Write,
    Read,
}

impl Fault {
    // The exit status that is wanted.
    fn status(self) -> u32
        ensures write { self ≡ Fault.Write → result ≡ 1 }
        ensures read { self ≡ Fault.Read → result ≡ 2 }
        ensures upper_bound { result ≤ 2 }
    {
        match self {
            Fault::Write => 1,
            Fault::Read => 2,
        }
    }
}

// From any reader to any writer, which is flushed before each read, whenever answers are written, and at the end: a flush that fails is an answer that can't be
// written. 0 where the script was read to its end, or its first line is bad; 1 where the answers can't be written; 2 where the script can't be read: a number
// still, since the README names it and C is told it.
pub fn play_script_flushed<R: io::Read + Drop, W: io::Write + Drop>(input: R, output: W) -> u32
    ensures { result ≤ 2 }
{
    match Player::new(input, output).play() {
        Ok(()) => 0,
        Err(fault) => fault.status(),
    }
}

// The same to a writer that is not flushed. Whoever has one that keeps bytes back lends it by `&mut`, and flushes it afterwards.
pub fn play_script<R: io::Read + Drop, W: io::Write + Drop>(input: R, output: W) -> u32
    ensures { result ≤ 2 }
{
    play_script_flushed(input, Unflushed { writer: output })
}
