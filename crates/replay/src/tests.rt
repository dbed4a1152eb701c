// Both ways to play, to a writer whose flush fails.
use crate::{play_script, play_script_flushed};
use std::io;
use std::test::Fail;

#[derive(Drop)]
struct NeverFlushed<'a> {
    room: &'a mut [u8],
}

impl io::Write for NeverFlushed<'_> {
    fn write(&mut self, buf: &[u8]) -> io::Result<usize> {
        self.room.write(buf)
    }

    fn flush(&mut self) -> io::Result<()> {
        Err(io::Error::from(io::ErrorKind::Other))
    }
}

// 02, No. 6: its example.
const SCRIPT: &[u8] =
    b"2b7e151628aed2a6abf7158809cf4f3c\t1\nset\ta\t0\t0000000000000000\t4142\nget\ta\nremove\tb\n";

#[test]
fn a_writer_that_is_not_flushed_has_all_answers() -> Result<(), Fail> {
    let mut answers = [0u8; 13];
    let output = NeverFlushed { room: &mut answers };
    if play_script(SCRIPT, output) != 0 {
        return Err("another status than 0")?;
    }
    if answers != *b"0\t\n0\t4142\n6\t\n" {
        return Err("other answers")?;
    }
    Ok(())
}

#[test]
fn a_flush_that_fails_is_told() -> Result<(), Fail> {
    let mut answers = [0u8; 13];
    let output = NeverFlushed { room: &mut answers };
    if play_script_flushed(SCRIPT, output) != 1 {
        return Err("another status than 1")?;
    }
    Ok(())
}
