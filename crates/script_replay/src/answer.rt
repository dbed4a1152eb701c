// The answer to a line: the number, a tab, the returned bytes in hex, a newline.
ghost use Rattle.std.specs.Prelude.{◌≡◌, [], ◌≤◌, length};
ghost use Rattle.script_replay.specs.Script.{at_front, answer_line, err_syntax};

use buffers::parts;
use text::{decimal, hex};

// The longest answer has 2 digits, 480 bytes in hex, a tab and a newline.
pub const ANSWER_SIZE: usize = 1024;

// A number, as `put_answer` takes one: it is what is printed.
pub const ERR_SYNTAX: u32 = 15;

// To the front of a buffer; the rest stays as it was.
pub(crate) fn put_answer(status: u32, data: &[u8], out: &mut [u8; ANSWER_SIZE]) -> usize
    requires { length «data».now ≤ 480 }
    ensures value { result ≡ length (answer_line status «data».now) }
    ensures out_after { out.new ≡ at_front (answer_line status «data».now) out.old }
{
    let mut number = [0u8; 20];
    let k = decimal::format_decimal(status as u64, &mut number).unwrap();
    let mut pairs = [0u8; 960];
    let n = hex::encode_hex(data, &mut pairs).unwrap();
    parts::paste(out, 0, &number[0..k]);
    parts::paste(out, k, b"\t");
    parts::paste(out, k + 1, &pairs[0..n]);
    parts::paste(out, k + 1 + n, b"\n");
    k + n + 2
}

// The answer to a line that can't be read. The last clause follows from the others, so that a caller can take `&out[0..n]` without a proof.
pub fn put_unreadable(out: &mut [u8; ANSWER_SIZE]) -> usize
    ensures value { result ≡ length (answer_line err_syntax []) }
    ensures out_after { out.new ≡ at_front (answer_line err_syntax []) out.old }
    ensures upper_bound { result ≤ length out.new }
{
    put_answer(ERR_SYNTAX, b"", out)
}
