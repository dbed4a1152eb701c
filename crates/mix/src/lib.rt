// The monitor product: a player's mix, kept as a record and found again by its session number.
#![tactic(auto)]

pub mod arrays;
pub mod codec;
pub mod find;
pub mod monitor;
pub mod persist;
pub mod range;
pub mod send;
mod session;
