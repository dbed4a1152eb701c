// Keys kept as records under their identifiers. Card, chip and device key stay three parameters: C lends them apart, and the store's calls take them so.
ghost use Rattle.std.specs.Prelude.{◌≡◌, [], ◌∷◌};
ghost use Rattle.store.specs.Answers.{status_of, count_of};
ghost use Rattle.spec.specs.Name.{key_name};
ghost use Rattle.spec.specs.Calls.{store_set, store_get};
ghost use Rattle.keys.specs.Calls.{save_key, load_key};

use crate::key_file::KeyAttributes;
use crate::{format, key_file, key_name, parse};
use buffers::parts;
use store::status::Refusal;
use store::{get, set};

// Set and get with the identifier in the name's place.
fn set_key(
    kv: &mut [u8],
    rbp: &mut [u8],
    device_key: &[u8],
    key_id: u32,
    flags: u32,
    iv: &[u8],
    file: &[u8],
) -> Result<(), Refusal>
    ensures { record { answer = record { status = status_of result; numbers = []; output = [] }; after = record { kv = kv.new; rbp = rbp.new } } ≡ store_set kv.old rbp.old device_key.now (key_name key_id) flags iv.now file.now }
{
    let mut digits = [0u8; 16];
    let name = key_name::key_name(key_id, &mut digits);
    set::set(kv, rbp, device_key, name, flags, iv, file)
}

fn get_key(
    kv: &[u8],
    rbp: &[u8],
    device_key: &[u8],
    key_id: u32,
    file: &mut [u8],
) -> Result<usize, Refusal>
    ensures { record { status = status_of result; numbers = count_of result ∷ []; output = file.new } ≡ (store_get kv.now rbp.now device_key.now (key_name key_id) 0 file.old).answer }
{
    let mut digits = [0u8; 16];
    let name = key_name::key_name(key_id, &mut digits);
    get::get(kv, rbp, device_key, name, 0, file)
}

// 01: "keeping"
pub fn save_persistent_key(
    kv: &mut [u8],
    rbp: &mut [u8],
    device_key: &[u8],
    key_id: u32,
    attributes: KeyAttributes,
    material: &[u8],
    flags: u32,
    iv: &[u8],
) -> Result<(), Refusal>
    ensures { record { answer = record { status = status_of result; numbers = []; output = [] }; after = record { kv = kv.new; rbp = rbp.new } } ≡ save_key kv.old rbp.old device_key.now key_id attributes material.now flags iv.now }
{
    if key_file::MAX_KEY_MATERIAL < material.len() {
        return Err(Refusal::InvalidKeyFile);
    }
    let mut file = [0u8; key_file::MAX_KEY_FILE];
    format::put_key_file(attributes, material, &mut file);
    let len = key_file::KEY_FILE_HEADER + material.len();
    set_key(kv, rbp, device_key, key_id, flags, iv, &file[..len])
}

// 01: "loading". The record is opened in a local array, so that the key buffer is not touched before the file is judged.
pub fn load_persistent_key(
    kv: &[u8],
    rbp: &[u8],
    device_key: &[u8],
    key_id: u32,
    key_buf: &mut [u8],
) -> Result<usize, Refusal>
    ensures { record { status = status_of result; numbers = count_of result ∷ []; output = key_buf.new } ≡ load_key kv.now rbp.now device_key.now key_id key_buf.old }
{
    if key_buf.len() < key_file::MAX_KEY_FILE {
        return Err(Refusal::Length);
    }
    let mut file = [0u8; key_file::MAX_KEY_FILE];
    let count = get_key(kv, rbp, device_key, key_id, &mut file)?;
    let found = &file[..count];
    parse::parse_key_file(found)?;
    parts::paste(key_buf, 0, found);
    Ok(count)
}
