// A mix as three arrays, for callers that have no enum: each send's tag, level and pan.
ghost use Rattle.std.specs.Prelude.{◌≡◌, [], ◌∷◌, ◌++◌, ◌-◌, ◌≤◌, leb, length, replicate};
ghost use Rattle.buffers.specs.Bytes.{every};
ghost use Rattle.mix.specs.declared.monitor.AuxSend.TheVariants.{Muted};
ghost use Rattle.store.specs.Answers.{status_of, value_or, count_of};
ghost use Rattle.mix.specs.Arrays.{no_sends, sends_from, send_tag, send_level, send_pan, encode_sends, spread_over, decode_sends};

use crate::monitor::{AuxSend, MonitorMix};
use crate::{codec, monitor, send};
use store::status::Refusal;

fn tags_valid(tags: &[u8]) -> bool
    ensures { result ≡ every (λ t. leb t 2) tags.now }
{
    tags.iter().all(|tag| *tag <= send::TAG_LEVEL_PAN)
}

fn sends_from(tags: &[u8], levels: &[f32], pans: &[f32]) -> [AuxSend; 16]
    requires { (length tags.now ≤ 16) × (length levels.now ≡ length tags.now) × (length pans.now ≡ length tags.now) }
    ensures { result ≡ sends_from tags.now levels.now pans.now ++ replicate (16 - length tags.now) Muted }
{
    let mut sends = [AuxSend::Muted; monitor::MAX_SENDS];
    // By an index: a `zip` of the three with `enumerate` was tried; std has no lemma on what an `enumerate` of it yields, and the proof didn't close.
    for (i, tag) in tags.iter().enumerate() {
        sends[i] = send::send_from(*tag, levels[i], pans[i]);
    }
    sends
}

pub fn encode_sends(
    session_id: u64,
    tags: &[u8],
    levels: &[f32],
    pans: &[f32],
    mix_buf: &mut [u8],
) -> Result<usize, Refusal>
    ensures { record { status = status_of result; numbers = count_of result ∷ []; output = mix_buf.new } ≡ encode_sends session_id tags.now levels.now pans.now mix_buf.old }
{
    if mix_buf.len() < monitor::MAX_MIX {
        return Err(Refusal::Length);
    }
    if levels.len() != tags.len() {
        return Err(Refusal::Length);
    }
    if pans.len() != tags.len() {
        return Err(Refusal::Length);
    }
    if monitor::MAX_SENDS < tags.len() {
        return Err(Refusal::InvalidMix);
    }
    if !tags_valid(tags) {
        return Err(Refusal::InvalidMix);
    }
    let sends = sends_from(tags, levels, pans);
    let mix = MonitorMix {
        session_id,
        count: tags.len() as u8,
        sends,
    };
    codec::encode_mix(mix, mix_buf)
}

// Tag, level and pan; 0.0 stands for what a send has not.
fn send_parts(send: AuxSend) -> (u8, f32, f32)
    ensures { (result.0 ≡ send_tag send) × (result.1 ≡ send_level send) × (result.2 ≡ send_pan send) }
{
    match send {
        AuxSend::Muted => (send::TAG_MUTED, 0.0, 0.0),
        AuxSend::Level(level) => (send::TAG_LEVEL, level, 0.0),
        AuxSend::LevelPan(level, pan) => (send::TAG_LEVEL_PAN, level, pan),
    }
}

// The arrays' fronts are written; what stands behind the mix's sends is as before.
fn spread(mix: MonitorMix, tags: &mut [u8], levels: &mut [f32], pans: &mut [f32])
    requires { (mix.count ≤ 16) × (16 ≤ length tags.old) × (16 ≤ length levels.old) × (16 ≤ length pans.old) }
    ensures { record { tags = tags.new; levels = levels.new; pans = pans.new } ≡ spread_over mix (record { tags = tags.old; levels = levels.old; pans = pans.old }) }
{
    // By an index: a `zip` with `iter_mut` was tried; in its loop a proof knows nothing of what was written, and it didn't close.
    for (i, send) in mix.sends[..mix.count as usize].iter().enumerate() {
        let (tag, level, pan) = send_parts(*send);
        tags[i] = tag;
        levels[i] = level;
        pans[i] = pan;
    }
}

// What bytes say, beside the arrays.
#[derive(Clone, Copy, Default)]
pub struct Decoded {
    pub session_id: u64,
    pub count: usize,
}

pub fn decode_sends(
    b: &[u8],
    tags: &mut [u8],
    levels: &mut [f32],
    pans: &mut [f32],
) -> Result<Decoded, Refusal>
    ensures { record { status = status_of result; session = (value_or no_sends result).session_id; count = (value_or no_sends result).count; arrays = record { tags = tags.new; levels = levels.new; pans = pans.new } } ≡ decode_sends b.now (record { tags = tags.old; levels = levels.old; pans = pans.old }) }
{
    if tags.len() < monitor::MAX_SENDS {
        return Err(Refusal::Length);
    }
    if levels.len() < monitor::MAX_SENDS {
        return Err(Refusal::Length);
    }
    if pans.len() < monitor::MAX_SENDS {
        return Err(Refusal::Length);
    }
    let mix = codec::decode_mix(b)?;
    spread(mix, tags, levels, pans);
    Ok(Decoded {
        session_id: mix.session_id,
        count: mix.count as usize,
    })
}
