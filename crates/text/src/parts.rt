// Lines and fields: the parts of a text between separators.
ghost use Rattle.std.specs.Prelude.{◌≡◌, [], length, get_or};
ghost use Rattle.text.specs.Parts.{parts, lines, tab, newline, part_start, part_place};

use crate::scan;

pub const NEWLINE: u8 = b'\n';

pub const TAB: u8 = b'\t';

// How many parts there are: one more than separators.
pub fn part_count(s: &[u8], separator: u8) -> usize
    ensures { result ≡ length (parts separator s.now) }
{
    s.iter().filter(|x| **x == separator).count() + 1
}

// Where part k starts, or the length where there are not so many parts.
fn part_start(s: &[u8], separator: u8, k: usize) -> usize
    ensures { result ≡ part_start separator s.now k }
{
    let mut left = k;
    for (i, x) in s.iter().enumerate() {
        if left == 0 {
            return i;
        }
        if *x == separator {
            left -= 1;
        }
    }
    s.len()
}

// Part k, counted from 0; where there are not so many, the empty part at the end. The library's `split` does not say where a part lies.
pub fn part(s: &[u8], separator: u8, k: usize) -> &[u8]
    ensures { (result.now ≡ get_or (parts separator s.now) k []) × (result.ref_ptr ≡ part_place s.entry separator k) }
{
    let from = part_start(s, separator, k);
    let end = scan::find(s, from, s.len(), separator);
    &s[from..end]
}

// How many lines there are: each ends with a newline, which the last may lack.
pub fn line_count(text: &[u8]) -> usize
    ensures { result ≡ length (lines text.now) }
{
    let ended = text.iter().filter(|x| **x == NEWLINE).count();
    match text.last() {
        Some(last) if *last != NEWLINE => ended + 1,
        _ => ended,
    }
}

// Line k, counted from 0, without its newline; where there are not so many, the empty part at the end.
pub fn line(text: &[u8], k: usize) -> &[u8]
    ensures { (result.now ≡ get_or (lines text.now) k []) × (result.ref_ptr ≡ part_place text.entry newline k) }
{
    part(text, NEWLINE, k)
}

// Fields are the parts at tabs: an empty line has one, the empty one.
pub fn field_count(line: &[u8]) -> usize
    ensures { result ≡ length (parts tab line.now) }
{
    part_count(line, TAB)
}

pub fn field(line: &[u8], k: usize) -> &[u8]
    ensures { (result.now ≡ get_or (parts tab line.now) k []) × (result.ref_ptr ≡ part_place line.entry tab k) }
{
    part(line, TAB, k)
}
