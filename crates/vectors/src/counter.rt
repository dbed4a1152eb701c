// Counter mode from any counter block (SP 800-38A, 6.5): here its first half is the IV, and its second half the count.
use crate::fields::{LONGEST, block};
use buffers::parts::{array, copy_fitting};
use cipher::ctr::ctr_xor_at;

// The block at a place of the message, of which the first block's counter block is so many blocks after the one given.
pub fn xored(
    key: [u8; 16],
    counter: [u8; 16],
    blocks: usize,
    message: &[u8],
    at: usize,
) -> [u8; 16] {
    let iv = array::<8>(&counter[..8]);
    let first = u64::from_be_bytes(array::<8>(&counter[8..]));
    let mut all = [0u8; LONGEST];
    let n = copy_fitting(message, &mut all);
    ctr_xor_at(key, iv, first.wrapping_add(blocks as u64), &mut all[..n]);
    block(&all, at)
}
