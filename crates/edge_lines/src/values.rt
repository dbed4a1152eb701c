// Bytes as a line writes them (docs/EDGES.md).
use crate::areas::{front, put};
use text::decimal::parse_decimal;
use text::hex::decode_hex;

// What is left to read of a text.
#[derive(Drop)]
struct Rest<'a>(&'a [u8]);

impl<'a> Rest<'a> {
    // The bytes before the first of some others, or all.
    fn before(&mut self, stops: &[u8]) -> &'a [u8] {
        let s = self.0;
        let end = s.iter().position(|b| stops.contains(b)).unwrap_or(s.len());
        let (front, rest) = s.split_at(end);
        self.0 = rest;
        front
    }

    // Whether a byte stands next, which is then read.
    fn eats(&mut self, byte: u8) -> bool {
        match self.0.split_first() {
            Some((first, rest)) if *first == byte => {
                self.0 = rest;
                true
            }
            _ => false,
        }
    }

    // What is repeated: text up to the quote that ends it, or hex.
    fn unit(&mut self, unit: &mut [u8]) -> Result<usize, usize> {
        if self.eats(b'"') {
            let text = self.before(b"\"");
            let fits = put(unit, 0, text);
            counted(self.eats(b'"') && fits, text.len())
        } else {
            let n = decode_hex(self.before(b" *"), unit).unwrap_or(0);
            counted(0 < n, n)
        }
    }

    // How often: as many times as stand behind a star, or once.
    fn times(&mut self) -> Option<usize> {
        if !self.eats(b'*') {
            return Some(1);
        }
        parse_decimal(self.before(b" "), 65535).map(|n| n as usize)
    }

    // A piece ends with the text, or with a space before the next.
    fn ends_piece(&mut self) -> bool {
        let ends = matches!(self.0, [] | [b' ', _, ..]);
        self.eats(b' ');
        ends
    }

    // One piece more, behind the bytes that are there.
    fn piece(&mut self, out: &mut [u8], count: usize) -> Result<usize, usize> {
        let mut unit = [0u8; 1024];
        let one = self.unit(&mut unit);
        let times = self.times();
        let bytes = front(&unit, some(one));
        let all = put_times(bytes, times.unwrap_or(0), out, count);
        let ok = one.is_ok() && times.is_some() && all.is_ok() && self.ends_piece();
        counted(ok, some(all))
    }
}

fn counted(ok: bool, count: usize) -> Result<usize, usize> {
    if ok { Ok(count) } else { Err(count) }
}

// How many bytes were read, of a text that can be read or not.
pub fn some(read: Result<usize, usize>) -> usize {
    read.unwrap_or_else(|count| count)
}

fn put_times(unit: &[u8], times: usize, out: &mut [u8], count: usize) -> Result<usize, usize> {
    let mut fits = true;
    let mut to = count;
    for _ in 0..times {
        fits = put(out, to, unit) && fits;
        to = to.wrapping_add(unit.len());
    }
    counted(fits, to)
}

// How many bytes; of a text that cannot be read, how many it gave before, since a line that prepares goes on with these.
pub fn read_bytes(s: &[u8], out: &mut [u8]) -> Result<usize, usize> {
    if matches!(s, b"-") {
        return Ok(0);
    }
    if s.is_empty() {
        return Err(0);
    }
    let mut rest = Rest(s);
    let mut count = 0;
    // Every piece has a byte at the least, so that as many turns as bytes are enough.
    for _ in 0..s.len() {
        if !rest.0.is_empty() {
            count = rest.piece(out, count)?;
        }
    }
    Ok(count)
}
