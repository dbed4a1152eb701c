// PSA key files: read, written, and kept as records under the key's identifier.
#![tactic(auto)]

pub mod format;
pub mod key_file;
mod key_name;
pub mod parse;
pub mod persist;
pub mod reader;
