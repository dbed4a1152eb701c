// A key as CMAC has it.
ghost use Rattle.std.specs.Prelude.{◌≡◌, replicate};
ghost use Rattle.cipher.specs.Aes.{block_of, encrypt_with};
ghost use Rattle.cipher.specs.Columns.{columns_state};

use crate::aes::{Cipher, Columns};

// A key in use, and the block of zeros encrypted under it, from which the subkeys are made.
#[derive(Clone, Copy)]
pub(crate) struct MacKey<'a> {
    pub(crate) cipher: Cipher<'a>,
    pub(crate) zero: Columns,
    pub(crate) ghost encrypted: { block_of (columns_state zero) ≡ encrypt_with cipher.keys.now (replicate 16 0) },
}

impl<'a> MacKey<'a> {
    pub(crate) fn new(cipher: Cipher<'a>) -> Self
        ensures { result.cipher.keys.now ≡ cipher.entry.keys.now }
    {
        let zero = cipher.encrypt(Columns::ZERO);
        MacKey { cipher, zero }
    }
}
