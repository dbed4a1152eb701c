// 02: "keeping": a mix is stored as a record. No struct of a store's arguments: C hands them over one by one, and the signatures of the calls stay.
ghost use Rattle.std.specs.Prelude.{◌≡◌, true, []};
ghost use Rattle.store.specs.Answers.{status_of};
ghost use Rattle.mix.specs.Calls.{mix_named, store_if_valid, store_mix, store_encoded_mix};

use crate::monitor::MonitorMix;
use crate::{codec, monitor};
use slots::slot;
use store::set;
use store::status::Refusal;

// What the names of mixes begin with.
pub const MIX_PREFIX: [u8; 4] = *b"mix/";

pub(crate) fn mix_named(name: &[u8]) -> bool
    ensures { result ≡ mix_named name.now }
{
    let prefix = MIX_PREFIX;
    slot::has_prefix(name, &prefix)
}

// The bytes of a mix: 3 for another name, then as set.
fn store_valid(
    kv: &mut [u8],
    rbp: &mut [u8],
    device_key: &[u8],
    name: &[u8],
    flags: u32,
    iv: &[u8],
    mix: &[u8],
) -> Result<(), Refusal>
    ensures { record { answer = record { status = status_of result; numbers = []; output = [] }; after = record { kv = kv.new; rbp = rbp.new } } ≡ store_if_valid kv.old rbp.old device_key.now name.now flags iv.now true mix.now }
{
    if !mix_named(name) {
        return Err(Refusal::InvalidName);
    }
    set::set(kv, rbp, device_key, name, flags, iv, mix)
}

// A mix that is given by its bytes.
pub fn store_encoded_mix(
    kv: &mut [u8],
    rbp: &mut [u8],
    device_key: &[u8],
    name: &[u8],
    flags: u32,
    iv: &[u8],
    mix: &[u8],
) -> Result<(), Refusal>
    ensures { record { answer = record { status = status_of result; numbers = []; output = [] }; after = record { kv = kv.new; rbp = rbp.new } } ≡ store_encoded_mix kv.old rbp.old device_key.now name.now flags iv.now mix.now }
{
    if !codec::mix_valid(mix) {
        return Err(Refusal::InvalidMix);
    }
    store_valid(kv, rbp, device_key, name, flags, iv, mix)
}

pub fn store_mix(
    kv: &mut [u8],
    rbp: &mut [u8],
    device_key: &[u8],
    name: &[u8],
    flags: u32,
    iv: &[u8],
    mix: MonitorMix,
) -> Result<(), Refusal>
    ensures { record { answer = record { status = status_of result; numbers = []; output = [] }; after = record { kv = kv.new; rbp = rbp.new } } ≡ store_mix kv.old rbp.old device_key.now name.now flags iv.now mix }
{
    let mut bytes = [0u8; monitor::MAX_MIX];
    let len = codec::encode_mix(mix, &mut bytes)?;
    store_valid(kv, rbp, device_key, name, flags, iv, &bytes[..len])
}
