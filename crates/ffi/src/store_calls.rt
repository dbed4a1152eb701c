// The store's calls. Every number that a call gives besides its status is written through a pointer, 0 on a refusal.
ghost use Rattle.std.specs.Prelude.{◌≡◌, [], ◌∷◌};
ghost use Rattle.spec.specs.Calls as Calls;

use store::status::number;
use store::{get, iterate, remove, reset, set};

#[unsafe(no_mangle)]
pub extern "C" fn securestore_set(
    kv: &mut [u8],
    rbp: &mut [u8],
    device_key: &[u8],
    name: &[u8],
    flags: u32,
    iv: &[u8],
    data: &[u8],
) -> u32
    ensures { record { answer = record { status = result; numbers = []; output = [] }; after = record { kv = kv.new; rbp = rbp.new } } ≡ Calls.store_set kv.old rbp.old device_key.now name.now flags iv.now «data».now }
{
    number(set::set(kv, rbp, device_key, name, flags, iv, data))
}

#[unsafe(no_mangle)]
pub extern "C" fn securestore_get(
    kv: &[u8],
    rbp: &[u8],
    device_key: &[u8],
    name: &[u8],
    offset: usize,
    output: &mut [u8],
    count: &mut usize,
) -> u32
    ensures { record { status = result; numbers = count.new ∷ []; output = output.new } ≡ (Calls.store_get kv.now rbp.now device_key.now name.now offset output.old).answer }
{
    let answer = get::get(kv, rbp, device_key, name, offset, output);
    *count = answer.unwrap_or(0);
    number(answer)
}

#[unsafe(no_mangle)]
pub extern "C" fn securestore_get_info(
    kv: &[u8],
    rbp: &[u8],
    device_key: &[u8],
    name: &[u8],
    data_size: &mut u32,
    flags: &mut u32,
) -> u32
    ensures { record { status = result; numbers = data_size.new ∷ flags.new ∷ []; output = [] } ≡ (Calls.store_get_info kv.now rbp.now device_key.now name.now).answer }
{
    let answer = get::get_info(kv, rbp, device_key, name);
    let info = answer.unwrap_or_default();
    *data_size = info.data_size;
    *flags = info.flags;
    number(answer)
}

#[unsafe(no_mangle)]
pub extern "C" fn securestore_remove(kv: &mut [u8], rbp: &mut [u8], name: &[u8]) -> u32
    ensures { record { answer = record { status = result; numbers = []; output = [] }; after = record { kv = kv.new; rbp = rbp.new } } ≡ Calls.store_remove kv.old rbp.old name.now }
{
    number(remove::remove(kv, rbp, name))
}

#[unsafe(no_mangle)]
pub extern "C" fn securestore_reset(kv: &mut [u8], rbp: &mut [u8]) -> u32
    ensures { record { answer = record { status = result; numbers = []; output = [] }; after = record { kv = kv.new; rbp = rbp.new } } ≡ Calls.store_reset kv.old rbp.old }
{
    number(reset::reset(kv, rbp))
}

#[unsafe(no_mangle)]
pub extern "C" fn securestore_iterator_next(
    kv: &[u8],
    rbp: &[u8],
    prefix: &[u8],
    start_slot: usize,
    name_buf: &mut [u8],
    name_len: &mut usize,
    next_slot: &mut usize,
) -> u32
    ensures { record { status = result; numbers = name_len.new ∷ next_slot.new ∷ []; output = name_buf.new } ≡ (Calls.store_iterator_next kv.now rbp.now prefix.now start_slot name_buf.old).answer }
{
    let answer = iterate::iterator_next(kv, rbp, prefix, start_slot, name_buf);
    let next = answer.unwrap_or_default();
    *name_len = next.name_len;
    *next_slot = next.next_slot;
    number(answer)
}
