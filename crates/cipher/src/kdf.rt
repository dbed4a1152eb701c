// Key derivation in counter mode over CMAC (SP 800-108, 5.1), one block of output.

ghost use Rattle.std.specs.Prelude.{◌≡◌, ◌++◌, if◌then◌else◌};
ghost use Rattle.cipher.specs.Aes.{expand_key};
ghost use Rattle.cipher.specs.Kdf.{enc_prefix, auth_prefix, kdf, derived_key};
ghost use Rattle.cipher.specs.Device.{prepared, bare, IsPrepared};

use crate::aes::{Cipher, Columns};
use crate::cmac::Pending;
use crate::mac_key::MacKey;
use crate::tables::Tables;
use buffers::parts;

// The prefixes of the two keys that each name has.
const ENC: [u8; 3] = *b"ENC";

const AUTH: [u8; 4] = *b"AUTH";

// The derived key for a label in two parts, both taken whole.
pub fn kdf_counter_cmac(key: [u8; 16], first: &[u8], second: &[u8]) -> [u8; 16]
    ensures { result ≡ kdf key (first.now ++ second.now) }
{
    let tables = Tables::new();
    let keys = tables.expand_key(&key);
    let cipher = Cipher::new(&tables, &keys);
    let start = cipher.absorb(Pending::NONE, &[1]);
    let label = cipher.absorb(cipher.absorb(start, first), second);
    let end = cipher.absorb(label, &[0, 0, 0, 0, 0x80]);
    MacKey::new(cipher).close(end)
}

impl MacKey<'_> {
    // The key for a prefix and a name, which together are cut to 32 bytes: the CMAC of a message of at most 38 bytes.
    fn derive(self, key: [u8; 16], prefix: &[u8], name: &[u8]) -> [u8; 16]
        requires { self.cipher.keys.now ≡ expand_key key }
        ensures { result ≡ derived_key key prefix.now name.now }
    {
        let p = prefix.len().min(32);
        let n = name.len().min(32 - p);
        let mut message = [0u8; 38];
        message[0] = 1;
        parts::paste(&mut message, 1, &prefix[..p]);
        parts::paste(&mut message, p + 1, &name[..n]);
        message[p + n + 5] = 0x80;
        let end = p + n + 6;
        self.tag_of(&message[..end])
    }
}

// The key derived from the device key for a prefix and a name.
pub fn derive_key(device_key: [u8; 16], prefix: &[u8], name: &[u8]) -> [u8; 16]
    ensures { result ≡ derived_key device_key prefix.now name.now }
{
    let tables = Tables::new();
    let keys = tables.expand_key(&device_key);
    MacKey::new(Cipher::new(&tables, &keys)).derive(device_key, prefix, name)
}

// The device key with what each derivation takes of it: its expansion, and the zero block encrypted under it.
#[derive(Clone, Copy)]
pub struct DeviceKey {
    pub key: [u8; 16],
    pub keys: [u32; 44],
    pub zero: [u8; 16],
}

pub fn prepare(tables: &Tables, key: [u8; 16]) -> DeviceKey
    ensures { result ≡ prepared key }
{
    let keys = tables.expand_key(&key);
    let zero = MacKey::new(Cipher::new(tables, &keys)).zero.store();
    DeviceKey { key, keys, zero }
}

// The device key, prepared where keys are to be derived; there is nothing to lend where none is. A bare key and no Option: what this ensures may not change
// (DECISIONS 127).
pub fn prepare_if(wanted: bool, tables: &Tables, key: [u8; 16]) -> DeviceKey
    ensures { result ≡ (if wanted then prepared key else bare key) }
{
    if wanted {
        return prepare(tables, key);
    }
    DeviceKey {
        key,
        keys: [0; 44],
        zero: [0; 16],
    }
}

// A key derived from the device key, which was prepared.
fn derive_prepared(device: &DeviceKey, prefix: &[u8], name: &[u8]) -> [u8; 16]
    requires { IsPrepared device.now }
    ensures { result ≡ derived_key device.now.key prefix.now name.now }
{
    let tables = Tables::new();
    let mac = MacKey {
        cipher: Cipher::new(&tables, &device.keys),
        zero: Columns::load(&device.zero),
    };
    mac.derive(device.key, prefix, name)
}

// The key that a name's data is encrypted under. Two public names, which may not change: each is a line over `derive_prepared`.
pub fn derive_encryption_key(device: &DeviceKey, name: &[u8]) -> [u8; 16]
    requires { IsPrepared device.now }
    ensures { result ≡ derived_key device.now.key enc_prefix name.now }
{
    derive_prepared(device, &ENC, name)
}

// The key that a name's record is authenticated under.
pub fn derive_authentication_key(device: &DeviceKey, name: &[u8]) -> [u8; 16]
    requires { IsPrepared device.now }
    ensures { result ≡ derived_key device.now.key auth_prefix name.now }
{
    derive_prepared(device, &AUTH, name)
}
