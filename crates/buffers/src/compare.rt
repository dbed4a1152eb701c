// Comparisons: those for equality look at every byte, and decide at the end or leave it to the caller; that for order stops at the first four that differ.
ghost use Rattle.std.specs.Prelude.{◌≡◌, ◌≤◌, min, length, drop};
ghost use Rattle.buffers.specs.Bytes.{all_zero, bytes_eq};
ghost use Rattle.buffers.specs.Compare.{precedes, diff_accumulate};

use crate::numbers;

// An or over all bytes with one test after it: such a loop is vectorised.
pub fn all_zero(s: &[u8]) -> bool
    ensures { result ≡ all_zero s.now }
{
    s.iter().fold(0u8, |seen, byte| seen | *byte) == 0
}

// The bits in which two byte strings of one length differ, at any place: every pair is looked at, whatever was seen before.
fn diff_accumulate(a: &[u8], b: &[u8]) -> u8
    requires { length a.now ≡ length b.now }
    ensures { result ≡ diff_accumulate a.now b.now }
{
    a.iter().zip(b).fold(0u8, |diff, (x, y)| diff | (*x ^ *y))
}

// Names, prefixes and marks; a CMAC is compared by `tag_difference`.
pub fn bytes_equal(a: &[u8], b: &[u8]) -> bool
    ensures { result ≡ bytes_eq a.now b.now }
{
    a.len() == b.len() && diff_accumulate(a, b) == 0
}

// 02, No. 3: the bits in which two CMACs differ, at any of the sixteen places. Every comparison of a CMAC is this one, and its yes is 0.
pub fn tag_difference(a: [u8; 16], b: [u8; 16]) -> u8
    ensures { result ≡ diff_accumulate a b }
{
    diff_accumulate(&a, &b)
}

// The order of what stands from `start` on, byte by byte.
fn precedes_from(a: &[u8], b: &[u8], start: usize) -> bool
    requires { start ≤ min (length a.now) (length b.now) }
    ensures { result ≡ precedes (drop start a.now) (drop start b.now) }
{
    for i in start..a.len().min(b.len()) {
        if a[i] != b[i] {
            return a[i] < b[i];
        }
    }
    a.len() < b.len()
}

// 02, No. 7: "byte order [..] (a prefix first)". Four bytes at a time: the first four that differ decide as numbers. Tried with the library's order of slices,
// which goes byte by byte where eight of them differ: it makes a call on many short names slower by a half.
pub fn precedes(a: &[u8], b: &[u8]) -> bool
    ensures { result ≡ precedes a.now b.now }
{
    let words = a.len().min(b.len()) / 4;
    for i in 0..words {
        let x = numbers::be32_at(a, 4 * i);
        let y = numbers::be32_at(b, 4 * i);
        if x != y {
            return x < y;
        }
    }
    precedes_from(a, b, 4 * words)
}
