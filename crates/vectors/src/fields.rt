// What the fields of a line hold: bytes in hex, "-" where there are none, and decimal numbers.
ghost use Rattle.std.specs.Prelude.{◌<◌, ◌≤◌};

use buffers::parts::copy_fitting;
use text::decimal::parse_decimal;
use text::hex::decode_hex;
use text::parts::{field, line};

// The most bytes that a field may hold: as many as the longest published message has.
pub const LONGEST: usize = 160;

// The bytes of a field, and zeros after them. An array with a size, since there is no heap for a Vec.
#[derive(Clone, Copy)]
pub struct Bytes {
    all: [u8; LONGEST],
    size: usize,
    ghost inside: { size ≤ 160 },
}

impl Bytes {
    pub fn read(f: &[u8]) -> Option<Bytes> {
        let mut all = [0u8; LONGEST];
        if matches!(f, b"-") {
            return Some(Bytes { all, size: 0 });
        }
        let size = decode_hex(f, &mut all)?;
        if size == 0 {
            return None;
        }
        Some(Bytes { all, size })
    }

    pub fn as_slice(&self) -> &[u8] {
        &self.all[..self.size]
    }
}

// A number of at most six digits.
pub fn number(f: &[u8]) -> Option<usize> {
    parse_decimal(f, 999999).map(|n| n as usize)
}

// Whether a field is the number of bits that so many bytes have.
pub fn is_bits(f: &[u8], bytes: usize) -> bool {
    number(f).is_some_and(|bits| bits % 8 == 0 && bits / 8 == bytes)
}

// At most n bytes, from a place on.
pub fn part(s: &[u8], from: usize, n: usize) -> &[u8] {
    let rest = s.get(from..).unwrap_or(&[]);
    rest.get(..n).unwrap_or(rest)
}

// The block at a place, with zeros where the bytes end.
pub fn block(s: &[u8], at: usize) -> [u8; 16] {
    let mut b = [0u8; 16];
    copy_fitting(part(s, at, 16), &mut b);
    b
}

// The first block of a field's bytes.
pub fn field_block(f: &[u8]) -> [u8; 16] {
    match Bytes::read(f) {
        Some(bytes) => block(bytes.as_slice(), 0),
        None => [0; 16],
    }
}

// Fills out, which holds zeros, with field k of the lines after the first, of which each gives size bytes.
pub fn column(text: &[u8], k: usize, size: usize, out: &mut [u8])
    requires { 0 < size }
{
    for (i, place) in out.chunks_mut(size).enumerate() {
        if let Some(bytes) = Bytes::read(field(line(text, 1 + i), k)) {
            copy_fitting(bytes.as_slice(), place);
        }
    }
}

// Whether some bytes from a place on, 16 or as many as are left, are the start of the block.
pub fn states(bytes: &[u8], at: usize, found: [u8; 16]) -> bool {
    let expected = part(bytes, at, 16);
    !expected.is_empty() && found.starts_with(expected)
}
