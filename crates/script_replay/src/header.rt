// The first line: the device key in hex, and how many slots card and chip have.
ghost use Rattle.std.specs.Prelude.{◌≡◌, ◌≤◌, IfSome};
ghost use Rattle.script_replay.specs.Script.{header};

use crate::step::LINE_LIMIT;
use text::{decimal, hex, parts};

// At most 64 slots stands in the clauses, not in a ghost field: `header` and the theorem `HeaderExact` build it as a record of these two fields.
#[derive(Clone, Copy)]
pub struct ScriptHeader {
    pub key: [u8; 16],
    pub slots: usize,
}

#[tactic(auto, using(crate::proofs::Headers::key_fits, crate::proofs::Headers::key_length), unfolding(crate::specs::Script::header, crate::specs::Script::header_valid, text::specs::Decimal::read, text::specs::Written::answer, text::specs::Written::left))]
pub fn read_header(line: &[u8]) -> Option<ScriptHeader>
    ensures value { result ≡ header line.now }
    ensures slots_bound { IfSome result (λ h. h.slots ≤ 64) }
{
    if LINE_LIMIT < line.len() {
        return None;
    }
    if parts::field_count(line) != 2 {
        return None;
    }
    let digits = parts::field(line, 0);
    if digits.len() != 32 {
        return None;
    }
    let mut key = [0u8; 16];
    hex::decode_hex(digits, &mut key)?;
    let slots = decimal::parse_decimal(parts::field(line, 1), 64)?;
    if slots < 1 {
        return None;
    }
    Some(ScriptHeader {
        key,
        slots: slots as usize,
    })
}
