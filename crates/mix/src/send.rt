// A send and its nine bytes.
ghost use Rattle.std.specs.Prelude.{◌≡◌, true, ◌∷◌, ◌++◌, length};
ghost use Rattle.buffers.specs.Bytes.{le_bytes};
ghost use Rattle.mix.specs.Arrays.{send_from};
ghost use Rattle.mix.specs.Send.{send_in_range, send_bytes, send_valid, send_of};

use crate::monitor::AuxSend;
use crate::range;
use buffers::{compare, numbers};

// The tags as the bytes have them, and C's arrays; in the code a send is an `AuxSend`.
pub const TAG_MUTED: u8 = 0;

pub const TAG_LEVEL: u8 = 1;

pub const TAG_LEVEL_PAN: u8 = 2;

pub fn send_in_range(send: AuxSend) -> bool
    ensures { result ≡ send_in_range send }
{
    match send {
        AuxSend::Muted => true,
        AuxSend::Level(level) => range::level_in_range(level),
        AuxSend::LevelPan(level, pan) => range::level_in_range(level) && range::pan_in_range(pan),
    }
}

// The nine bytes, from their parts.
fn nine_bytes(tag: u8, level: u32, pan: u32) -> [u8; 9]
    ensures { result ≡ tag ∷ (le_bytes 4 level ++ le_bytes 4 pan) }
{
    let mut b = [0u8; 9];
    b[0] = tag;
    numbers::put_le_at(level, &mut b, 1, 4);
    numbers::put_le_at(pan, &mut b, 5, 4);
    b
}

// A float in range is no NaN, so that it has bits.
pub(crate) fn encode_send(send: AuxSend) -> [u8; 9]
    requires { send_in_range send ≡ true }
    ensures { result ≡ send_bytes send }
{
    match send {
        AuxSend::Muted => nine_bytes(TAG_MUTED, 0, 0),
        AuxSend::Level(level) => nine_bytes(TAG_LEVEL, f32::to_bits(level), 0),
        AuxSend::LevelPan(level, pan) => {
            nine_bytes(TAG_LEVEL_PAN, f32::to_bits(level), f32::to_bits(pan))
        }
    }
}

// Nine bytes that are a send's. The bits are judged before a float is made of them.
pub(crate) fn send_valid(b: &[u8]) -> bool
    requires { length b.now ≡ 9 }
    ensures { result ≡ send_valid b.now }
{
    match b[0] {
        TAG_MUTED => compare::all_zero(&b[1..]),
        TAG_LEVEL => {
            range::level_bits_in_range(numbers::le_at(b, 1, 4)) && compare::all_zero(&b[5..])
        }
        TAG_LEVEL_PAN => {
            range::level_bits_in_range(numbers::le_at(b, 1, 4))
                && range::pan_bits_in_range(numbers::le_at(b, 5, 4))
        }
        _ => false,
    }
}

// A level or a pan that the tag does not have is not looked at.
#[tactic(auto, unfolding(crate::specs::Arrays::send_from))]
pub(crate) fn send_from(tag: u8, level: f32, pan: f32) -> AuxSend
    ensures { result ≡ send_from tag level pan }
{
    match tag {
        TAG_MUTED => AuxSend::Muted,
        TAG_LEVEL => AuxSend::Level(level),
        _ => AuxSend::LevelPan(level, pan),
    }
}

// Unused bytes are zero, so that each of the two is the bits of a float that is no NaN.
pub(crate) fn decode_send(b: &[u8]) -> AuxSend
    requires { (length b.now ≡ 9) × (send_valid b.now ≡ true) }
    ensures { result ≡ send_of b.now }
{
    let level = f32::from_bits(numbers::le_at(b, 1, 4));
    let pan = f32::from_bits(numbers::le_at(b, 5, 4));
    send_from(b[0], level, pan)
}
