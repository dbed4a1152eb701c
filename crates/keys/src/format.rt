// Writing a key file.
ghost use Rattle.std.specs.Prelude.{◌≡◌, [], ◌∷◌, ◌++◌, ◌+◌, ◌≤◌, length, drop};
ghost use Rattle.store.specs.Answers.{status_of, count_of};
ghost use Rattle.keys.specs.KeyFile.{key_file_header, format_key_file};
ghost use Rattle.keys.specs.Calls.{write_key_file};

use crate::key_file;
use crate::key_file::KeyAttributes;
use buffers::{numbers, parts};
use store::status::Refusal;

fn put_header(attributes: KeyAttributes, material_len: u32, dst: &mut [u8])
    requires { 36 ≤ length dst.old }
    ensures { dst.new ≡ key_file_header attributes material_len ++ drop 36 dst.old }
{
    let fields = [
        key_file::KEY_FILE_VERSION,
        attributes.lifetime,
        attributes.key_type,
        attributes.usage,
        attributes.alg,
        attributes.enrollment_alg,
        material_len,
    ];
    parts::paste(dst, 0, &key_file::KEY_FILE_MARK);
    for (i, field) in fields.iter().enumerate() {
        numbers::put_le_at(*field, dst, 8 + 4 * i, 4);
    }
}

// A file at the front of a buffer.
pub(crate) fn put_key_file(attributes: KeyAttributes, material: &[u8], dst: &mut [u8])
    requires { (36 + length material.now ≤ length dst.old) × (length material.now ≤ 444) }
    ensures { dst.new ≡ format_key_file attributes material.now ++ drop (36 + length material.now) dst.old }
{
    put_header(attributes, material.len() as u32, dst);
    parts::paste(dst, key_file::KEY_FILE_HEADER, material);
}

pub fn format_key_file(
    attributes: KeyAttributes,
    material: &[u8],
    key_buf: &mut [u8],
) -> Result<usize, Refusal>
    ensures { record { status = status_of result; numbers = count_of result ∷ []; output = key_buf.new } ≡ write_key_file attributes material.now key_buf.old }
{
    if key_buf.len() < key_file::MAX_KEY_FILE {
        return Err(Refusal::Length);
    }
    if key_file::MAX_KEY_MATERIAL < material.len() {
        return Err(Refusal::InvalidKeyFile);
    }
    put_key_file(attributes, material, key_buf);
    Ok(key_file::KEY_FILE_HEADER + material.len())
}
