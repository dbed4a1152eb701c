// One record: made, judged and opened, each function proved equal to its definition in spec.
#![tactic(auto)]

pub mod flags;
pub mod keys;
pub mod mac;
pub mod open;
pub mod record;
pub mod seal;
