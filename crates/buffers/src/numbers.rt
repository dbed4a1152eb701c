// Numbers in bytes: little-endian, of as many bytes as asked, and big-endian, of four.
ghost use Rattle.std.specs.Prelude.{◌≡◌, ◌+◌, ◌*◌, ◌≤◌, length, get_or};
ghost use Rattle.buffers.specs.Bytes.{le_bytes, le_value, le_at, put_at};

use crate::parts;

// A number that fills the part: of any width, where `to_le_bytes` has one.
fn put_le(value: u32, dst: &mut [u8])
    ensures { dst.new ≡ le_bytes (length dst.old) value }
{
    let mut rest = value;
    for byte in dst.iter_mut() {
        *byte = (rest % 256) as u8;
        rest /= 256;
    }
}

// The number that the part holds, of any width up to four, where `from_le_bytes` has one.
fn read_le(src: &[u8]) -> u32
    requires { length src.now ≤ 4 }
    ensures { result ≡ le_value src.now }
{
    src.iter()
        .rev()
        .fold(0u32, |value, byte| value << 8 | u32::from(*byte))
}

pub fn put_le_at(value: u32, dst: &mut [u8], at: usize, width: usize)
    requires { at + width ≤ length dst.old }
    ensures { dst.new ≡ put_at dst.old at (le_bytes width value) }
{
    let end = at + width;
    put_le(value, &mut dst[at..end])
}

pub fn le_at(src: &[u8], at: usize, width: usize) -> u32
    requires { (at + width ≤ length src.now) × (width ≤ 4) }
    ensures { result ≡ le_at width src.now at }
{
    let end = at + width;
    read_le(&src[at..end])
}

// Four bytes with the first highest.
pub fn be32_at(src: &[u8], at: usize) -> u32
    requires { at + 4 ≤ length src.now }
    ensures { result ≡ get_or src.now at 0 * 0x1000000 + get_or src.now (at + 1) 0 * 0x10000 + get_or src.now (at + 2) 0 * 0x100 + get_or src.now (at + 3) 0 }
{
    u32::from_be_bytes(parts::array(&src[at..at + 4]))
}
