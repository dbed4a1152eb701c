// A mix and its bytes.
ghost use Rattle.std.specs.Prelude.{◌≡◌, true, ◌+◌, ◌*◌, ◌≤◌, length, take, drop};
ghost use mathlib.Core.List.{[], ◌∷◌, ◌++◌, map, flatten};
ghost use Rattle.buffers.specs.Bytes.{every, le_bytes, zero_fill};
ghost use Rattle.store.specs.Answers.{status_of, value_or, count_of};
ghost use Rattle.mix.specs.Mix.{mix_in_range, mix_bytes, sends_at, mix_valid, read_sends, zero_mix, decode_mix, encode_mix};
ghost use Rattle.mix.specs.Send.{send_in_range, send_bytes, send_valid};

use crate::monitor::{AuxSend, MonitorMix};
use crate::{monitor, send, session};
use buffers::parts;
use store::status::Refusal;

fn sends_in_range(sends: &[AuxSend]) -> bool
    ensures { result ≡ every send_in_range sends.now }
{
    sends.iter().all(|send| send::send_in_range(*send))
}

pub fn mix_in_range(mix: MonitorMix) -> bool
    ensures { result ≡ mix_in_range mix }
{
    let count = mix.count as usize;
    count <= monitor::MAX_SENDS && sends_in_range(&mix.sends[..count])
}

// Session number and count, zeros behind them.
fn header_bytes(session_id: u64, count: u8) -> [u8; 153]
    ensures { result ≡ zero_fill 153 (le_bytes 8 session_id ++ (count ∷ [])) }
{
    let mut b = [0u8; 153];
    session::put_session(session_id, &mut b);
    b[8] = count;
    b
}

// The sends, one behind the other after the header.
fn put_sends(sends: &[AuxSend], header: [u8; 153]) -> [u8; 153]
    requires { (length sends.now ≤ 16) × (every send_in_range sends.now ≡ true) }
    ensures { result ≡ (take 9 header ++ flatten (map send_bytes sends.now)) ++ drop (9 + 9 * length sends.now) header }
{
    let mut b = header;
    for (i, send) in sends.iter().enumerate() {
        let bytes = send::encode_send(*send);
        parts::paste(&mut b, monitor::MIX_HEADER + monitor::SEND_SIZE * i, &bytes);
    }
    b
}

// The bytes of a mix in range, zeros behind them.
fn mix_bytes(mix: MonitorMix) -> [u8; 153]
    requires { mix_in_range mix ≡ true }
    ensures value { result ≡ zero_fill 153 (mix_bytes mix) }
    ensures mix_len { length (mix_bytes mix) ≡ 9 + 9 * mix.count }
{
    let header = header_bytes(mix.session_id, mix.count);
    put_sends(&mix.sends[..mix.count as usize], header)
}

// A mix's bytes, at the front of a buffer.
pub fn encode_mix(mix: MonitorMix, mix_buf: &mut [u8]) -> Result<usize, Refusal>
    ensures { record { status = status_of result; numbers = count_of result ∷ []; output = mix_buf.new } ≡ encode_mix mix mix_buf.old }
{
    if mix_buf.len() < monitor::MAX_MIX {
        return Err(Refusal::Length);
    }
    if !mix_in_range(mix) {
        return Err(Refusal::InvalidMix);
    }
    let bytes = mix_bytes(mix);
    let len = monitor::MIX_HEADER + monitor::SEND_SIZE * mix.count as usize;
    parts::paste(mix_buf, 0, &bytes[..len]);
    Ok(len)
}

// The sends that stand behind the header are all well formed. Each is cut by its number, as in `read_sends`: no lemma of std says what `chunks_exact` gives.
fn sends_valid(b: &[u8], count: usize) -> bool
    requires { (length b.now ≡ 9 + 9 * count) × (count ≤ 16) }
    ensures { result ≡ every send_valid (sends_at count b.now) }
{
    for i in 0..count {
        let at = monitor::MIX_HEADER + monitor::SEND_SIZE * i;
        if !send::send_valid(&b[at..at + monitor::SEND_SIZE]) {
            return false;
        }
    }
    true
}

pub fn mix_valid(b: &[u8]) -> bool
    ensures { result ≡ mix_valid b.now }
{
    if b.len() < monitor::MIX_HEADER {
        return false;
    }
    let count = b[8] as usize;
    count <= monitor::MAX_SENDS
        && b.len() == monitor::MIX_HEADER + monitor::SEND_SIZE * count
        && sends_valid(b, count)
}

fn read_sends(b: &[u8], count: usize) -> [AuxSend; 16]
    requires { (length b.now ≡ 9 + 9 * count) × (count ≤ 16) × (every send_valid (sends_at count b.now) ≡ true) }
    ensures { result ≡ read_sends count b.now }
{
    let mut sends = [AuxSend::Muted; monitor::MAX_SENDS];
    for i in 0..count {
        let at = monitor::MIX_HEADER + monitor::SEND_SIZE * i;
        sends[i] = send::decode_send(&b[at..at + monitor::SEND_SIZE]);
    }
    sends
}

// What bytes say, or 20.
pub fn decode_mix(b: &[u8]) -> Result<MonitorMix, Refusal>
    ensures { record { status = status_of result; mix = value_or zero_mix result } ≡ decode_mix b.now }
{
    if !mix_valid(b) {
        return Err(Refusal::InvalidMix);
    }
    let count = b[8];
    Ok(MonitorMix {
        session_id: session::session_at(b),
        count,
        sends: read_sends(b, count as usize),
    })
}
