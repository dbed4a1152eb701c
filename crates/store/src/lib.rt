// The store's calls. Each answers with what it gives or with a `Refusal`, which has its number, and writes nothing lent before it is known which.
#![tactic(auto)]

pub mod answers;
pub mod get;
pub mod guard;
pub mod handle;
pub mod incremental;
pub mod iterate;
pub mod judge;
pub mod remove;
pub mod reset;
pub mod set;
pub mod status;
