// A set that arrives in chunks. C keeps the handle as 88 bytes, since its structs have no form here.
ghost use Rattle.std.specs.Prelude.{◌≡◌, []};
ghost use Rattle.spec.specs.Incremental as Incremental;

use store::status::number;
use store::{handle, incremental};

#[unsafe(no_mangle)]
pub extern "C" fn securestore_set_start(
    name: &[u8],
    flags: u32,
    iv: &[u8],
    final_data_size: usize,
    handle: &mut [u8; 88],
) -> u32
    ensures value { result ≡ (Incremental.set_start name.now flags iv.now final_data_size).answer.status }
    ensures handle_after { handle.new ≡ Incremental.handle_bytes (Incremental.set_start name.now flags iv.now final_data_size).after }
{
    let answer = incremental::set_start(name, flags, iv, final_data_size);
    *handle = handle::encode_handle(answer.handle);
    number(answer.outcome)
}

#[unsafe(no_mangle)]
pub extern "C" fn securestore_set_add_data(
    handle: &mut [u8; 88],
    staging: &mut [u8],
    chunk: &[u8],
) -> u32
    ensures value { result ≡ (Incremental.set_add_data (Incremental.handle_of handle.old) staging.old chunk.now).answer.status }
    ensures handle_after { handle.new ≡ Incremental.handle_bytes (Incremental.set_add_data (Incremental.handle_of handle.old) staging.old chunk.now).after.handle }
    ensures staging_after { staging.new ≡ (Incremental.set_add_data (Incremental.handle_of handle.old) staging.old chunk.now).after.staging }
{
    let answer = incremental::set_add_data(handle::decode_handle(*handle), staging, chunk);
    *handle = handle::encode_handle(answer.handle);
    number(answer.outcome)
}

#[unsafe(no_mangle)]
pub extern "C" fn securestore_set_finalize(
    kv: &mut [u8],
    rbp: &mut [u8],
    device_key: &[u8],
    handle: &[u8; 88],
    staging: &[u8],
) -> u32
    ensures { record { answer = record { status = result; numbers = []; output = [] }; after = record { kv = kv.new; rbp = rbp.new } } ≡ Incremental.store_set_finalize kv.old rbp.old device_key.now (Incremental.handle_of handle.now) staging.now }
{
    number(incremental::set_finalize(kv, rbp, device_key, handle::decode_handle(*handle), staging))
}
