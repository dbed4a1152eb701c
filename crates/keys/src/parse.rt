// A key file's fields, taken one after the other, and the file judged.
ghost use Rattle.std.specs.Prelude.{◌≡◌, Ok};
ghost use Rattle.keys.specs.KeyFile.{parse_key_file};
ghost use Rattle.keys.specs.Reader.{part_at, header_at, read_header, read_material};

use crate::key_file;
use crate::key_file::{KeyAttributes, KeyFile};
use crate::reader::KeyFileReader;
use store::status::Refusal;

#[derive(Clone, Copy)]
pub struct Header {
    pub version: u32,
    pub attributes: KeyAttributes,
    pub material_len: u32,
}

fn take_header(r: &mut KeyFileReader) -> Result<Header, Refusal>
    ensures { record { answer = result; after = r.new } ≡ header_at r.old }
{
    r.take_mark()?;
    let version = r.take_field()?;
    let lifetime = r.take_field()?;
    let key_type = r.take_field()?;
    let usage = r.take_field()?;
    let alg = r.take_field()?;
    let enrollment_alg = r.take_field()?;
    let material_len = r.take_field()?;
    let attributes = KeyAttributes {
        lifetime,
        key_type,
        usage,
        alg,
        enrollment_alg,
    };
    Ok(Header {
        version,
        attributes,
        material_len,
    })
}

// The material behind a file's header, as long as the header says.
fn take_material<'a>(r: &mut KeyFileReader<'a>, header: Header) -> Result<&'a [u8], Refusal>
    requires { record { answer = Ok header; after = r.old } ≡ read_header r.old.file }
    ensures part { record { answer = result; after = r.new } ≡ part_at r.old header.material_len }
    ensures of_file { record { answer = result; after = r.new } ≡ read_material r.old.file }
{
    r.take_material(header.material_len as usize)
}

// What a file says, or 13. Header and material are taken, and then judged.
pub fn parse_key_file(file: &[u8]) -> Result<KeyFile, Refusal>
    ensures { result ≡ parse_key_file file.now }
{
    let mut r = KeyFileReader::new(file);
    let header = take_header(&mut r)?;
    take_material(&mut r, header)?;
    if header.version != key_file::KEY_FILE_VERSION {
        return Err(Refusal::InvalidKeyFile);
    }
    if key_file::MAX_KEY_MATERIAL < header.material_len as usize {
        return Err(Refusal::InvalidKeyFile);
    }
    if r.pos != file.len() {
        return Err(Refusal::InvalidKeyFile);
    }
    Ok(KeyFile {
        attributes: header.attributes,
        material_len: header.material_len,
    })
}
