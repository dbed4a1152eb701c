// PSA key files. A key's attributes are five numbers, since C's structs have no form here.
ghost use Rattle.std.specs.Prelude.{◌≡◌, [], ◌∷◌};
ghost use Rattle.keys.specs.Calls as Keys;
ghost use Rattle.keys.specs.KeyFile.{parse_key_file, file_answer};

use keys::key_file::KeyAttributes;
use keys::{format, parse, persist};
use store::status::number;

#[unsafe(no_mangle)]
pub extern "C" fn securestore_format_key_file(
    lifetime: u32,
    key_type: u32,
    usage: u32,
    alg: u32,
    enrollment_alg: u32,
    material: &[u8],
    key_buf: &mut [u8],
    count: &mut usize,
) -> u32
    ensures { record { status = result; numbers = count.new ∷ []; output = key_buf.new } ≡ Keys.write_key_file (record { lifetime = lifetime; key_type = key_type; usage = usage; alg = alg; enrollment_alg = enrollment_alg }) material.now key_buf.old }
{
    let attributes = KeyAttributes {
        lifetime,
        key_type,
        usage,
        alg,
        enrollment_alg,
    };
    let answer = format::format_key_file(attributes, material, key_buf);
    *count = answer.unwrap_or(0);
    number(answer)
}

#[unsafe(no_mangle)]
pub extern "C" fn securestore_save_key(
    kv: &mut [u8],
    rbp: &mut [u8],
    device_key: &[u8],
    key_id: u32,
    lifetime: u32,
    key_type: u32,
    usage: u32,
    alg: u32,
    enrollment_alg: u32,
    material: &[u8],
    flags: u32,
    iv: &[u8],
) -> u32
    ensures { record { answer = record { status = result; numbers = []; output = [] }; after = record { kv = kv.new; rbp = rbp.new } } ≡ Keys.save_key kv.old rbp.old device_key.now key_id (record { lifetime = lifetime; key_type = key_type; usage = usage; alg = alg; enrollment_alg = enrollment_alg }) material.now flags iv.now }
{
    let attributes = KeyAttributes {
        lifetime,
        key_type,
        usage,
        alg,
        enrollment_alg,
    };
    number(persist::save_persistent_key(
        kv, rbp, device_key, key_id, attributes, material, flags, iv,
    ))
}

#[unsafe(no_mangle)]
pub extern "C" fn securestore_load_key(
    kv: &[u8],
    rbp: &[u8],
    device_key: &[u8],
    key_id: u32,
    key_buf: &mut [u8],
    count: &mut usize,
) -> u32
    ensures { record { status = result; numbers = count.new ∷ []; output = key_buf.new } ≡ Keys.load_key kv.now rbp.now device_key.now key_id key_buf.old }
{
    let answer = persist::load_persistent_key(kv, rbp, device_key, key_id, key_buf);
    *count = answer.unwrap_or(0);
    number(answer)
}

// The file's fields; the material stands behind the header, in the lent file itself.
#[unsafe(no_mangle)]
pub extern "C" fn securestore_parse_key_file(
    file: &[u8],
    lifetime: &mut u32,
    key_type: &mut u32,
    usage: &mut u32,
    alg: &mut u32,
    enrollment_alg: &mut u32,
    material_len: &mut u32,
) -> u32
    ensures { record { status = result; attributes = record { lifetime = lifetime.new; key_type = key_type.new; usage = usage.new; alg = alg.new; enrollment_alg = enrollment_alg.new }; material_len = material_len.new } ≡ file_answer (parse_key_file file.now) }
{
    let answer = parse::parse_key_file(file);
    let file = answer.unwrap_or_default();
    let read = file.attributes;
    *lifetime = read.lifetime;
    *key_type = read.key_type;
    *usage = read.usage;
    *alg = read.alg;
    *enrollment_alg = read.enrollment_alg;
    *material_len = file.material_len;
    number(answer)
}
