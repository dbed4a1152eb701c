// The ciphers, and the comparison of CMACs. Keys, blocks and IVs are pointers to their fixed number of bytes.
ghost use Rattle.std.specs.Prelude.{◌≡◌};
ghost use Rattle.buffers.specs.Compare.{diff_accumulate};
ghost use Rattle.cipher.specs.Aes.{aes128};
ghost use Rattle.cipher.specs.Cmac as Cmac;
ghost use Rattle.cipher.specs.Ctr as Ctr;
ghost use Rattle.cipher.specs.Kdf.{derived_key};

use buffers::compare;
use cipher::{aes, cmac, ctr, kdf};

// AES-128: the block is encrypted in place.
#[unsafe(no_mangle)]
pub extern "C" fn securestore_aes128_encrypt(key: &[u8; 16], block: &mut [u8; 16])
    ensures { block.new ≡ aes128 key.now block.old }
{
    *block = aes::aes128_encrypt(*key, *block);
}

// CMAC of a whole message.
#[unsafe(no_mangle)]
pub extern "C" fn securestore_cmac(key: &[u8; 16], message: &[u8], tag: &mut [u8; 16])
    ensures { tag.new ≡ Cmac.cmac key.now message.now }
{
    *tag = cmac::cmac_tag(*key, message);
}

// The comparison of CMACs that the store's calls use, for an auditor to call: the bits in which some pair of the sixteen differs.
#[unsafe(no_mangle)]
pub extern "C" fn securestore_tag_difference(a: &[u8; 16], b: &[u8; 16]) -> u32
    ensures { result ≡ diff_accumulate a.now b.now }
{
    compare::tag_difference(*a, *b) as u32
}

// Counter mode from count 0, in place.
#[unsafe(no_mangle)]
pub extern "C" fn securestore_ctr(key: &[u8; 16], iv: &[u8; 8], data: &mut [u8])
    ensures { «data».new ≡ Ctr.ctr key.now iv.now «data».old }
{
    ctr::ctr_xor(*key, *iv, data);
}

// The key that the device key gives for a prefix and a name.
#[unsafe(no_mangle)]
pub extern "C" fn securestore_derive(
    device_key: &[u8; 16],
    prefix: &[u8],
    name: &[u8],
    out: &mut [u8; 16],
)
    ensures { out.new ≡ derived_key device_key.now prefix.now name.now }
{
    *out = kdf::derive_key(*device_key, prefix, name);
}
