// Bytes as pairs of hex digits: read in either case, written in lower case.
ghost use Rattle.std.specs.Prelude.{◌≡◌, true, ◌++◌, ◌*◌, ◌≤◌, ◌<◌, IfSome, length, drop};
ghost use Rattle.text.specs.Hex.{hex_value, all_hex_digits, is_hex, hex_bytes, hex_digit, hex_text};
ghost use Rattle.text.specs.Written.{answer, left};

// A writer answers how many bytes it wrote; a refusal has written none. The first two clauses of its contract say all; the third follows from them,
// so that a caller can take `&out[0..count]` without a proof.

// The value of a digit, or 16 for any other byte, which is the word of the laws (`HexLaws`). Tried with `to_digit`, which makes a set of the player slower by two fifths.
fn digit_value(c: u8) -> u8
    ensures { result ≡ hex_value c }
{
    match c {
        b'0'..=b'9' => c - b'0',
        b'A'..=b'F' => c - b'A' + 10,
        b'a'..=b'f' => c - b'a' + 10,
        _ => 16,
    }
}

fn digit(d: u8) -> u8
    requires { d < 16 }
    ensures { result ≡ hex_digit d }
{
    if d < 10 { b'0' + d } else { b'a' - 10 + d }
}

// By index, as `put_digits` is. Tried here: `zip` with `chunks_exact(2)`; the proof didn't close by the check alone, at any goal from `loop-byte-init` on, and its
// invariant would have to say what both iterators still hold.
fn put_pairs(text: &[u8], out: &mut [u8])
    requires { (length text.now ≡ 2 * length out.old) × (all_hex_digits text.now ≡ true) }
    ensures { out.new ≡ hex_bytes text.now }
{
    for (i, byte) in out.iter_mut().enumerate() {
        *byte = 16 * digit_value(text[2 * i]) + digit_value(text[2 * i + 1]);
    }
}

// The bytes that whole pairs of digits stand for, perhaps none, to the front of out; the rest stays as it was. Refused, with out untouched: an odd
// number of digits, another byte, and more bytes than out has.
pub fn decode_hex(text: &[u8], out: &mut [u8]) -> Option<usize>
    ensures value { result ≡ answer (is_hex text.now) (hex_bytes text.now) out.old }
    ensures out_after { out.new ≡ left (is_hex text.now) (hex_bytes text.now) out.old }
    ensures count_in_bounds { IfSome result (λ count. count ≤ length out.new) }
{
    let n = text.len() / 2;
    if text.len() % 2 != 0 {
        return None;
    }
    if out.len() < n {
        return None;
    }
    if !text.iter().all(|c| c.is_ascii_hexdigit()) {
        return None;
    }
    put_pairs(text, &mut out[0..n]);
    Some(n)
}

fn put_digits(data: &[u8], out: &mut [u8])
    requires { 2 * length «data».now ≤ length out.old }
    ensures { out.new ≡ hex_text «data».now ++ drop (2 * length «data».now) out.old }
{
    for (i, byte) in data.iter().enumerate() {
        out[2 * i] = digit(*byte / 16);
        out[2 * i + 1] = digit(*byte % 16);
    }
}

// Two digits for each byte, to the front of out; the rest stays as it was. Refused where they do not fit.
pub fn encode_hex(data: &[u8], out: &mut [u8]) -> Option<usize>
    ensures value { result ≡ answer true (hex_text «data».now) out.old }
    ensures out_after { out.new ≡ left true (hex_text «data».now) out.old }
    ensures count_in_bounds { IfSome result (λ count. count ≤ length out.new) }
{
    if out.len() / 2 < data.len() {
        return None;
    }
    put_digits(data, out);
    Some(2 * data.len())
}
