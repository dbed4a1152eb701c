// Counter mode over AES-128 (SP 800-38A, 6.5). The counter block is an 8-byte IV, then a 64-bit big-endian count.

ghost use Rattle.std.specs.Prelude.{◌≡◌, ◌+◌, ◌%◌, ◌^◌, ◌≤◌, ◌++◌, length, take, drop};
ghost use Rattle.cipher.specs.Aes.{number_word, word_at, word_bytes, xor_word, state_of, block_of, kept_key, encrypt_with};
ghost use Rattle.cipher.specs.Columns.{columns_state};
ghost use Rattle.cipher.specs.FirstRound.{shared_round};
ghost use Rattle.cipher.specs.Cmac.{xor_bytes};
ghost use Rattle.cipher.specs.Ctr.{counter_block, ctr_from, ctr_at, ctr};

use crate::aes::{Cipher, Columns, word_at};
use crate::tables::Tables;
use buffers::parts;

// The counter block as a state: the IV's two words, then the count's.
fn counter_columns(iv: [u8; 8], count: u64) -> Columns
    ensures { columns_state result ≡ state_of (counter_block iv count) }
{
    Columns {
        c0: word_at(&iv, 0),
        c1: word_at(&iv, 4),
        c2: (count / 0x100000000) as u32,
        c3: (count % 0x100000000) as u32,
    }
}

// Four bytes of a buffer and a word added. Read and written side by side, they are one load and one store each.
fn add_word(buf: &mut [u8], i: usize, w: u32)
    requires { i + 4 ≤ length buf.old }
    ensures { buf.new ≡ take i buf.old ++ word_bytes (xor_word (word_at buf.old i) (number_word w)) ++ drop (i + 4) buf.old }
{
    let x = word_at(buf, i) ^ w;
    parts::paste(buf, i, &x.to_be_bytes());
}

fn add_block(part: &mut [u8], s: Columns)
    requires { length part.old ≡ 16 }
    ensures { part.new ≡ xor_bytes part.old (block_of (columns_state s)) }
{
    add_word(part, 0, s.c0);
    add_word(part, 4, s.c1);
    add_word(part, 8, s.c2);
    add_word(part, 12, s.c3);
}

// By index: tried with `iter_mut`, after which a proof knows nothing of the bytes.
fn add_front(part: &mut [u8], stream: [u8; 16])
    requires { length part.old ≤ 16 }
    ensures { part.new ≡ xor_bytes part.old stream }
{
    for i in 0..part.len() {
        part[i] ^= stream[i];
    }
}

impl Cipher<'_> {
    // What the next counter block shares with those after it: the same, until the low word of the count starts again.
    fn next_shared(self, iv: [u8; 8], count: u64, shared: Columns) -> Columns
        requires { columns_state shared ≡ shared_round (kept_key self.keys.now) (state_of (counter_block iv count)) }
        ensures { columns_state result ≡ shared_round (kept_key self.entry.keys.now) (state_of (counter_block iv ((count + 1) % 2 ^ 64))) }
    {
        let next = count.wrapping_add(1);
        if next % 0x100000000 == 0 {
            return self.shared_round(counter_columns(iv, next));
        }
        shared
    }

    // Whole blocks in place, the first one's count given. By index: tried with `as_chunks_mut`, after which a proof knows nothing of the bytes.
    fn crypt_whole(self, iv: [u8; 8], count: u64, buf: &mut [u8])
        requires { length buf.old % 16 ≡ 0 }
        ensures { buf.new ≡ ctr_from (encrypt_with self.entry.keys.now) iv count 0 buf.old }
    {
        let mut shared = self.shared_round(counter_columns(iv, count));
        let mut counter = count;
        for i in 0..buf.len() / 16 {
            let s = self.encrypt_shared(shared, (counter % 0x100000000) as u32);
            add_block(&mut buf[16 * i..16 * i + 16], s);
            shared = self.next_shared(iv, counter, shared);
            counter = counter.wrapping_add(1);
        }
    }

    // A buffer encrypted or decrypted in place, the first block's count given: whole blocks, then the last partial one.
    fn crypt_blocks(self, iv: [u8; 8], count: u64, buf: &mut [u8])
        ensures { buf.new ≡ ctr_from (encrypt_with self.entry.keys.now) iv count 0 buf.old }
    {
        let n = buf.len();
        let end = n / 16 * 16;
        self.crypt_whole(iv, count, &mut buf[..end]);
        if end < n {
            let x = counter_columns(iv, count.wrapping_add((n / 16) as u64));
            add_front(&mut buf[end..n], self.encrypt(x).store());
        }
    }
}

// A buffer encrypted or decrypted in place, the first block's count given, with the tables lent.
fn crypt_at(tables: &Tables, key: [u8; 16], iv: [u8; 8], count: u64, buf: &mut [u8])
    ensures { buf.new ≡ ctr_at key iv count buf.old }
{
    let keys = tables.expand_key(&key);
    Cipher::new(tables, &keys).crypt_blocks(iv, count, buf)
}

// The same with the tables taken here.
pub fn ctr_xor_at(key: [u8; 16], iv: [u8; 8], count: u64, buf: &mut [u8])
    ensures { buf.new ≡ ctr_at key iv count buf.old }
{
    crypt_at(&Tables::new(), key, iv, count, buf)
}

// A buffer encrypted or decrypted in place, the count from 0, with the tables lent.
pub fn crypt(tables: &Tables, key: [u8; 16], iv: [u8; 8], buf: &mut [u8])
    ensures { buf.new ≡ ctr key iv buf.old }
{
    crypt_at(tables, key, iv, 0, buf)
}

// A buffer encrypted or decrypted in place, the count from 0.
pub fn ctr_xor(key: [u8; 16], iv: [u8; 8], buf: &mut [u8])
    ensures { buf.new ≡ ctr key iv buf.old }
{
    ctr_xor_at(key, iv, 0, buf)
}
