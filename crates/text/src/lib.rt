// Text in lent buffers: lines and fields, bytes as hex, numbers in decimal.
#![tactic(auto)]

pub mod decimal;
pub mod hex;
pub mod parts;
pub mod scan;
