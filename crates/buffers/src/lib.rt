// Bytes in lent buffers: compared, written, and read as numbers.
#![tactic(auto)]

pub mod compare;
pub mod numbers;
pub mod parts;
