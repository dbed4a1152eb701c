// Files in lent buffers.
ghost use Rattle.std.specs.Prelude.{IfSome};
ghost use Rattle.io.specs.Counts.{IsPrefixLen};

use std::fs::File;
use std::io::{Error, ErrorKind, Result};
use std::os::fd::AsRawFd;
use std::str;

const STDERR: i32 = 2;

fn open(rt: &HostRuntime, path: &[u8]) -> Result<File> {
    match str::from_utf8(path) {
        Ok(name) => File::open(rt, name),
        Err(_) => Err(Error::from(ErrorKind::InvalidFilename)),
    }
}

// Says on standard error why a file cannot be opened.
fn fail(rt: &HostRuntime, path: &[u8], why: Error) {
    io::write_all(STDERR, path);
    io::write_all(STDERR, b": ");
    let _ = rt.eprintln(why);
}

// Puts a file's bytes at the start of buf, and answers how many. A file that cannot be opened is told on standard error.
pub fn load(rt: &HostRuntime, path: &[u8], buf: &mut [u8]) -> Option<usize>
    ensures { IfSome result (λ n. IsPrefixLen n buf.new) }
{
    match open(rt, path) {
        Ok(file) => Some(io::read_full(file.as_raw_fd(), buf)),
        Err(why) => {
            fail(rt, path, why);
            None
        }
    }
}
