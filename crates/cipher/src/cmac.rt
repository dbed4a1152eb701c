// CMAC over AES-128 (SP 800-38B).
ghost use Rattle.std.specs.Prelude.{◌≡◌, ◌+◌, ◌-◌, ◌*◌, ◌/◌, ◌%◌, ◌<◌, ◌≤◌, ◌++◌, length, replicate};
ghost use Rattle.cipher.specs.Aes.{block_of, encrypt_with};
ghost use Rattle.cipher.specs.Columns.{columns_state};
ghost use Rattle.cipher.specs.Cmac.{double, chain, cmac_over, cmac};
ghost use Rattle.cipher.specs.CmacState.{keyed, begun, fed, finished, xor_from, closed_block};
ghost use Rattle.cipher.specs.Pending.{state_with};

use crate::aes;
use crate::aes::{Cipher, Columns};
use crate::mac_key::MacKey;
use crate::tables::Tables;
use buffers::parts;

// The running state: the chaining block with the pending bytes added to it, their count, and the expanded key. Block and count, where a
// list would do: there is no heap, and a block is fixed memory.
#[derive(Clone, Copy)]
pub struct CmacState {
    pub block: [u8; 16],
    pub pending: usize,
    pub keys: [u32; 44],
}

// The running state without its key.
#[derive(Clone, Copy)]
pub(crate) struct Pending {
    pub(crate) block: [u8; 16],
    pub(crate) count: usize,
}

impl Pending {
    // No message yet.
    pub(crate) const NONE: Pending = Pending {
        block: [0; 16],
        count: 0,
    };
}

// The bits of a one place to the left, and the first of b behind them.
fn shifted(a: u32, b: u32) -> u32
    ensures { result ≡ a % 0x80000000 * 2 + b / 0x80000000 }
{
    a % 0x80000000 * 2 + b / 0x80000000
}

fn doubled(s: Columns) -> Columns
    ensures { block_of (columns_state result) ≡ double (block_of (columns_state s)) }
{
    let c0 = shifted(s.c0, s.c1);
    let c1 = shifted(s.c1, s.c2);
    let c2 = shifted(s.c2, s.c3);
    let c3 = shifted(s.c3, 0);
    if s.c0 < 0x80000000 {
        return Columns { c0, c1, c2, c3 };
    }
    // R_128 of SP 800-38B, 5.3.
    let c3 = c3 ^ 0x87;
    Columns { c0, c1, c2, c3 }
}

// Bytes added to a block, from a place on. By index: tried with `iter_mut`, after which a proof knows nothing of the bytes.
fn add_bytes(block: [u8; 16], at: usize, data: &[u8]) -> [u8; 16]
    requires { at + length «data».now ≤ 16 }
    ensures { result ≡ xor_from block at «data».now }
{
    let mut sum = block;
    for (i, b) in data.iter().enumerate() {
        sum[at + i] ^= *b;
    }
    sum
}

// The bytes before the last block, which is never empty unless the message is.
fn before_last(len: usize) -> usize
    ensures { result ≡ 16 * ((len - 1) / 16) }
{
    len.saturating_sub(1) / 16 * 16
}

// The last block, padded unless it is full, with its subkey added.
fn close_block(block: [u8; 16], pending: usize, zero: Columns) -> Columns
    ensures { block_of (columns_state result) ≡ closed_block block pending (double (block_of (columns_state zero))) (double (double (block_of (columns_state zero)))) }
{
    let subkey1 = doubled(zero);
    if pending < 16 {
        let mut padded = block;
        padded[pending] ^= 0x80;
        return Columns::load(&padded) ^ doubled(subkey1);
    }
    Columns::load(&block) ^ subkey1
}

// The same of a message's last block by itself: it is copied, not added byte by byte, and does not wait for the chain.
fn last_block(rest: &[u8], zero: Columns) -> Columns
    requires { length rest.now ≤ 16 }
    ensures { block_of (columns_state result) ≡ closed_block (xor_from (replicate 16 0) 0 rest.now) (length rest.now) (double (block_of (columns_state zero))) (double (double (block_of (columns_state zero)))) }
{
    let mut block = [0u8; 16];
    parts::paste(&mut block, 0, rest);
    close_block(block, rest.len(), zero)
}

impl Cipher<'_> {
    // Whole blocks of a message, each added and then encrypted.
    fn chain_blocks(self, s: Columns, data: &[u8]) -> Columns
        ensures { block_of (columns_state result) ≡ chain (encrypt_with self.entry.keys.now) (length «data».now / 16) (block_of (columns_state s)) «data».now }
    {
        let mut chained = s;
        for block in data.as_chunks::<16>().0 {
            chained = self.encrypt(chained ^ Columns::load(block));
        }
        chained
    }

    // Bytes behind a full block, which is encrypted now that another comes: whole blocks follow, and one to sixteen bytes are kept.
    fn absorb_behind(self, block: [u8; 16], data: &[u8]) -> Pending
        requires { 0 < length «data».now }
        ensures { state_with result self.entry.keys.now ≡ fed (record { block = block; pending = 16; keys = self.entry.keys.now }) «data».now }
    {
        let next = self.encrypt(Columns::load(&block));
        let end = before_last(data.len());
        let chained = self.chain_blocks(next, &data[..end]);
        let last = &data[end..];
        Pending {
            block: add_bytes(chained.store(), 0, last),
            count: last.len(),
        }
    }

    // Bytes fill the pending block first.
    pub(crate) fn absorb(self, from: Pending, data: &[u8]) -> Pending
        ensures { state_with result self.entry.keys.now ≡ fed (state_with from self.entry.keys.now) «data».now }
    {
        let block = from.block;
        let p = from.count.min(16);
        let n = data.len().min(16 - p);
        let filled = add_bytes(block, p, &data[..n]);
        if n == data.len() {
            return Pending {
                block: filled,
                count: p + n,
            };
        }
        self.absorb_behind(filled, &data[n..])
    }
}

impl MacKey<'_> {
    // The tag of what was absorbed.
    pub(crate) fn close(self, from: Pending) -> [u8; 16]
        ensures { result ≡ (finished (state_with from self.entry.cipher.keys.now)).block }
    {
        let block = from.block;
        let x = close_block(block, from.count.min(16), self.zero);
        self.cipher.encrypt(x).store()
    }

    // The tag of a whole message.
    pub(crate) fn tag_of(self, message: &[u8]) -> [u8; 16]
        ensures { result ≡ cmac_over (encrypt_with self.entry.cipher.keys.now) message.now }
    {
        let end = before_last(message.len());
        let chained = self.cipher.chain_blocks(Columns::ZERO, &message[..end]);
        let x = chained ^ last_block(&message[end..], self.zero);
        self.cipher.encrypt(x).store()
    }
}

impl CmacState {
    // The state for a key.
    pub fn keyed(key: [u8; 16]) -> Self
        ensures { result ≡ keyed key }
    {
        let keys = aes::expand_key(&key);
        CmacState {
            block: [0; 16],
            pending: 0,
            keys,
        }
    }

    // The state for a new message under the same key.
    pub fn begin(self) -> Self
        ensures { result ≡ begun self }
    {
        CmacState {
            block: [0; 16],
            pending: 0,
            ..self
        }
    }

    // What is pending, without the key.
    fn pending_part(&self) -> Pending
        ensures { state_with result self.now.keys ≡ self.now }
    {
        let block = self.block;
        Pending {
            block,
            count: self.pending,
        }
    }

    // The state after more bytes of the message.
    pub fn feed(self, data: &[u8]) -> Self
        ensures { result ≡ fed self «data».now }
    {
        let tables = Tables::new();
        let end = Cipher::new(&tables, &self.keys).absorb(self.pending_part(), data);
        let block = end.block;
        CmacState {
            block,
            pending: end.count,
            ..self
        }
    }

    // The state after the message's end: its block is the tag.
    pub fn finish(self) -> Self
        ensures { result ≡ finished self }
    {
        let tables = Tables::new();
        let mac = MacKey::new(Cipher::new(&tables, &self.keys));
        let block = mac.close(self.pending_part());
        CmacState {
            block,
            pending: 0,
            ..self
        }
    }
}

// The tag of a whole message.
pub fn cmac_tag(key: [u8; 16], message: &[u8]) -> [u8; 16]
    ensures { result ≡ cmac key message.now }
{
    let tables = Tables::new();
    let keys = tables.expand_key(&key);
    MacKey::new(Cipher::new(&tables, &keys)).tag_of(message)
}

// The tag of a message in two parts, with the tables lent.
pub fn tag_parts(tables: &Tables, key: [u8; 16], first: &[u8], second: &[u8]) -> [u8; 16]
    ensures { result ≡ cmac key (first.now ++ second.now) }
{
    let keys = tables.expand_key(&key);
    let cipher = Cipher::new(tables, &keys);
    let start = cipher.absorb(Pending::NONE, first);
    let end = cipher.absorb(start, second);
    MacKey::new(cipher).close(end)
}
