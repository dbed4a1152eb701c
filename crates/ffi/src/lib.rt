// The library that firmware links: the calls of the store, of the key files and of mixes, and the ciphers, under C's calling convention.
//
// A slice is a pointer and a length. The proofs assume of every lent slice and of every lent number what Rattle's own callers ensure, so a C caller must:
// - pass no null pointer, also where the length is 0;
// - pass pointers that are aligned and valid for their length, for reading, and for writing where the parameter is not const;
// - pass lengths of at most half the address space, as every object in C has;
// - lend no bytes twice in one call where either lender may write: card, chip, output and out-numbers do not overlap one another or an input;
// - not use what is lent from another thread or an interrupt while the call runs.
// Nothing else is assumed: every other argument has an answer.
#![tactic(auto)]

pub mod cipher_calls;
pub mod incremental_calls;
pub mod key_calls;
pub mod mix_calls;
pub mod store_calls;
