// AES-128, CMAC, counter mode and key derivation, each proved equal to its standard's definition in specs/.
#![tactic(auto)]

pub mod aes;
pub mod cmac;
pub mod ctr;
pub mod kdf;
pub(crate) mod mac_key;
pub mod tables;
