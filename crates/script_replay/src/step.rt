// A line of a script, carried out on card and chip.
ghost use Rattle.std.specs.Prelude.{◌≡◌, ◌≤◌, length};
ghost use Rattle.std.specs.Option.{option_map};
ghost use Rattle.script_replay.specs.Script.{at_front};
ghost use Rattle.script_replay.specs.Replay.{answer_size, shown, left, set_line, get_line, remove_line, call_line, step};

use crate::answer;
use crate::answer::ANSWER_SIZE;
use crate::command::Command;
use store::status::number;
use store::{get, remove, set};
use text::{decimal, hex, parts};

// 02: "A line over 1,100 bytes before its newline" can't be read.
pub const LINE_LIMIT: usize = 1100;

// Half of a line's bytes, which no field in hex gives more than.
const HEX_SIZE: usize = 550;

// Card, chip and key stay three parameters: in a struct each clause reads `self.old.kv.now` for `kv.old`, and each call of the store takes them apart again.
#[tactic(auto, using(crate::proofs::Commands::bytes_fit), unfolding(crate::specs::Replay::set_line, text::specs::Decimal::read, text::specs::Written::answer))]
fn set_line(
    kv: &mut [u8],
    rbp: &mut [u8],
    device_key: &[u8],
    line: &[u8],
    out: &mut [u8; ANSWER_SIZE],
) -> Option<usize>
    requires { length line.now ≤ 1100 }
    ensures value { result ≡ option_map answer_size (set_line kv.old rbp.old device_key.now line.now) }
    ensures out_after { out.new ≡ shown (set_line kv.old rbp.old device_key.now line.now) out.old }
    ensures rbp_after { record { kv = kv.new; rbp = rbp.new } ≡ left kv.old rbp.old (set_line kv.old rbp.old device_key.now line.now) }
{
    let flags = decimal::parse_decimal(parts::field(line, 2), 4294967295)?;
    let mut iv = [0u8; HEX_SIZE];
    let n = hex::decode_hex(parts::field(line, 3), &mut iv)?;
    let mut data = [0u8; HEX_SIZE];
    let m = hex::decode_hex(parts::field(line, 4), &mut data)?;
    let answer = set::set(
        kv,
        rbp,
        device_key,
        parts::field(line, 1),
        flags as u32,
        &iv[0..n],
        &data[0..m],
    );
    Some(answer::put_answer(number(answer), b"", out))
}

fn get_line(
    kv: &[u8],
    rbp: &[u8],
    device_key: &[u8],
    line: &[u8],
    out: &mut [u8; ANSWER_SIZE],
) -> usize
    ensures value { result ≡ length (get_line kv.now rbp.now device_key.now line.now).answer }
    ensures out_after { out.new ≡ at_front (get_line kv.now rbp.now device_key.now line.now).answer out.old }
{
    let mut data = [0u8; 480];
    let answer = get::get(kv, rbp, device_key, parts::field(line, 1), 0, &mut data);
    let count = answer.unwrap_or(0);
    answer::put_answer(number(answer), &data[0..count], out)
}

#[tactic(auto, unfolding(crate::specs::Replay::remove_line))]
fn remove_line(kv: &mut [u8], rbp: &mut [u8], line: &[u8], out: &mut [u8; ANSWER_SIZE]) -> usize
    ensures value { result ≡ length (remove_line kv.old rbp.old line.now).answer }
    ensures out_after { out.new ≡ at_front (remove_line kv.old rbp.old line.now).answer out.old }
    ensures rbp_after { record { kv = kv.new; rbp = rbp.new } ≡ (remove_line kv.old rbp.old line.now).after }
{
    let answer = remove::remove(kv, rbp, parts::field(line, 1));
    answer::put_answer(number(answer), b"", out)
}

// One of the three calls. Nothing is done and nothing written where the line can't be read.
#[tactic(auto, unfolding(crate::specs::Replay::call_line))]
fn call_line(
    kv: &mut [u8],
    rbp: &mut [u8],
    device_key: &[u8],
    line: &[u8],
    out: &mut [u8; ANSWER_SIZE],
) -> Option<usize>
    ensures value { result ≡ option_map answer_size (call_line kv.old rbp.old device_key.now line.now) }
    ensures out_after { out.new ≡ shown (call_line kv.old rbp.old device_key.now line.now) out.old }
    ensures rbp_after { record { kv = kv.new; rbp = rbp.new } ≡ left kv.old rbp.old (call_line kv.old rbp.old device_key.now line.now) }
{
    if LINE_LIMIT < line.len() {
        return None;
    }
    match Command::of(line)? {
        Command::Set => set_line(kv, rbp, device_key, line, out),
        Command::Get => Some(get_line(kv, rbp, device_key, line, out)),
        Command::Remove => Some(remove_line(kv, rbp, line, out)),
    }
}

// The answer stands at the front of out, and its length is returned; the rest of out stays as it was. The last clause follows, as of `put_unreadable`.
#[tactic(auto, unfolding(crate::specs::Replay::step))]
pub fn step(
    kv: &mut [u8],
    rbp: &mut [u8],
    device_key: &[u8],
    line: &[u8],
    out: &mut [u8; ANSWER_SIZE],
) -> usize
    ensures value { result ≡ length (step kv.old rbp.old device_key.now line.now).answer }
    ensures out_after { out.new ≡ at_front (step kv.old rbp.old device_key.now line.now).answer out.old }
    ensures rbp_after { record { kv = kv.new; rbp = rbp.new } ≡ (step kv.old rbp.old device_key.now line.now).after }
    ensures upper_bound { result ≤ length out.new }
{
    match call_line(kv, rbp, device_key, line, out) {
        Some(n) => n,
        None => answer::put_unreadable(out),
    }
}
