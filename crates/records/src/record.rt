// A stored record: whether it is well formed, and its fields. Metadata size at 0, revision at 2, data size at 4, flags at 8, IV at 12,
// data at 20, the CMAC in the last 16 bytes.
ghost use Rattle.std.specs.Prelude.{◌≡◌, true, ◌||◌, length, ◌≤◌, IfSome};
ghost use Rattle.std.specs.Option.{is_some};
ghost use Rattle.buffers.specs.Bytes.{all_zero};
ghost use Rattle.spec.specs.Record.{data_size_of, flags_of, tag_of, well_formed};
ghost use Rattle.records.specs.Parts.{fields_valid, zeros_valid};

use crate::flags;
use buffers::{compare, numbers, parts};

// The revision that is written, and the only one accepted.
pub const REVISION: u32 = 1;

// 01: "well formed". A record that is too short has no field to look at.
pub fn record_valid(r: &[u8]) -> bool
    ensures { result ≡ well_formed r.now }
{
    if r.len() < 36 {
        return false;
    }
    fields_valid(r) && zeros_valid(r)
}

// The metadata says what the record is.
fn fields_valid(r: &[u8]) -> bool
    requires { 36 ≤ length r.now }
    ensures { result ≡ fields_valid r.now }
{
    let size = numbers::le_at(r, 4, 4);
    numbers::le_at(r, 0, 2) == 20
        && (numbers::le_at(r, 2, 2) == REVISION
            && (flags::valid_flags(numbers::le_at(r, 8, 4))
                && (size <= 480 && r.len() == size as usize + 36)))
}

fn zero_unless(asked: bool, part: &[u8]) -> bool
    ensures { result ≡ (asked || all_zero part.now) }
{
    asked || compare::all_zero(part)
}

// IV and CMAC are zero where the flags do not ask for them.
fn zeros_valid(r: &[u8]) -> bool
    requires { 36 ≤ length r.now }
    ensures { result ≡ zeros_valid r.now }
{
    let n = r.len();
    let flags = numbers::le_at(r, 8, 4);
    let tag = n - 16;
    zero_unless(flags::require_confidentiality(flags), &r[12..20])
        && zero_unless(flags::require_integrity(flags), &r[tag..])
}

// A record that is well formed.
#[derive(Clone, Copy)]
pub struct Record<'a> {
    pub bytes: &'a [u8],
    ghost valid: { well_formed bytes.now ≡ true },
}

impl<'a> Record<'a> {
    pub fn read(bytes: &'a [u8]) -> Option<Record<'a>>
        ensures some { is_some result ≡ well_formed bytes.now }
        ensures bytes { IfSome result (λ r. r.bytes.now ≡ bytes.now) }
    {
        if record_valid(bytes) {
            Some(Record { bytes })
        } else {
            None
        }
    }

    pub fn flags(self) -> u32
        ensures { result ≡ flags_of self.entry.bytes.now }
    {
        numbers::le_at(self.bytes, 8, 4)
    }

    pub fn data_size(self) -> u32
        ensures { result ≡ data_size_of self.entry.bytes.now }
    {
        numbers::le_at(self.bytes, 4, 4)
    }

    // The CMAC as stored.
    pub(crate) fn tag(self) -> [u8; 16]
        ensures { result ≡ tag_of self.entry.bytes.now }
    {
        let at = self.bytes.len() - 16;
        parts::array::<16>(&self.bytes[at..])
    }
}
