// Mixes. C gives and takes them as their bytes, and their sends as three arrays, since its structs have no form here.
ghost use Rattle.std.specs.Prelude.{◌≡◌, [], ◌∷◌};
ghost use Rattle.mix.specs.Arrays as Arrays;
ghost use Rattle.mix.specs.Calls as Mixes;

use mix::{arrays, find, persist};
use store::status::number;

#[unsafe(no_mangle)]
pub extern "C" fn securestore_store_mix(
    kv: &mut [u8],
    rbp: &mut [u8],
    device_key: &[u8],
    name: &[u8],
    flags: u32,
    iv: &[u8],
    mix: &[u8],
) -> u32
    ensures { record { answer = record { status = result; numbers = []; output = [] }; after = record { kv = kv.new; rbp = rbp.new } } ≡ Mixes.store_encoded_mix kv.old rbp.old device_key.now name.now flags iv.now mix.now }
{
    number(persist::store_encoded_mix(kv, rbp, device_key, name, flags, iv, mix))
}

#[unsafe(no_mangle)]
pub extern "C" fn securestore_find_mix(
    kv: &[u8],
    rbp: &[u8],
    device_key: &[u8],
    session_id: u64,
    mix_buf: &mut [u8],
    count: &mut usize,
) -> u32
    ensures { record { status = result; numbers = count.new ∷ []; output = mix_buf.new } ≡ Mixes.find_encoded_mix kv.now rbp.now device_key.now session_id mix_buf.old }
{
    let answer = find::find_encoded_mix(kv, rbp, device_key, session_id, mix_buf);
    *count = answer.unwrap_or(0);
    number(answer)
}

#[unsafe(no_mangle)]
pub extern "C" fn securestore_encode_mix(
    session_id: u64,
    tags: &[u8],
    levels: &[f32],
    pans: &[f32],
    mix_buf: &mut [u8],
    count: &mut usize,
) -> u32
    ensures { record { status = result; numbers = count.new ∷ []; output = mix_buf.new } ≡ Arrays.encode_sends session_id tags.now levels.now pans.now mix_buf.old }
{
    let answer = arrays::encode_sends(session_id, tags, levels, pans, mix_buf);
    *count = answer.unwrap_or(0);
    number(answer)
}

#[unsafe(no_mangle)]
pub extern "C" fn securestore_decode_mix(
    mix: &[u8],
    session_id: &mut u64,
    tags: &mut [u8],
    levels: &mut [f32],
    pans: &mut [f32],
    sends: &mut usize,
) -> u32
    ensures { record { status = result; session = session_id.new; count = sends.new; arrays = record { tags = tags.new; levels = levels.new; pans = pans.new } } ≡ Arrays.decode_sends mix.now (record { tags = tags.old; levels = levels.old; pans = pans.old }) }
{
    let answer = arrays::decode_sends(mix, tags, levels, pans);
    let decoded = answer.unwrap_or_default();
    *session_id = decoded.session_id;
    *sends = decoded.count;
    number(answer)
}
