// AES-128 (FIPS 197). Inside, the state is four 32-bit columns, each with its first byte highest.
ghost use Rattle.std.specs.Prelude.{◌≡◌, ◌+◌, ◌*◌, ◌<◌, ◌≤◌, ◌++◌, length, take, drop};
ghost use Rattle.cipher.specs.Sbox.{sub_byte};
ghost use Rattle.cipher.specs.Tables.{mix_word};
ghost use Rattle.cipher.specs.Aes.{number_word, sub_word, mix_column, diagonal, word_at, state_of, block_of};
ghost use Rattle.cipher.specs.Aes.{sub_bytes, shift_rows, mix_columns, add_round_key, kept_key, encrypt_with};
ghost use Rattle.cipher.specs.Aes.{word_number, rcon, next_round_key, state_numbers, expand_key, cipher, aes128};
ghost use Rattle.cipher.specs.Aes.{State, after_rounds};
ghost use Rattle.cipher.specs.Columns.{columns_state};
ghost use Rattle.cipher.specs.FirstRound.{last_column_part, shared_round};

use crate::tables::Tables;
use buffers::{numbers, parts};
use std::ops::BitXor;

#[derive(Clone, Copy)]
pub(crate) struct Columns {
    pub(crate) c0: u32,
    pub(crate) c1: u32,
    pub(crate) c2: u32,
    pub(crate) c3: u32,
}

impl Columns {
    pub(crate) const ZERO: Columns = Columns {
        c0: 0,
        c1: 0,
        c2: 0,
        c3: 0,
    };

    // Sixteen bytes of a buffer as a state.
    pub(crate) fn load_at(bytes: &[u8], i: usize) -> Columns
        requires { i + 16 ≤ length bytes.now }
        ensures { columns_state result ≡ state_of (drop i bytes.now) }
    {
        Columns {
            c0: word_at(bytes, i),
            c1: word_at(bytes, i + 4),
            c2: word_at(bytes, i + 8),
            c3: word_at(bytes, i + 12),
        }
    }

    pub(crate) fn load(block: &[u8; 16]) -> Columns
        ensures { columns_state result ≡ state_of block.now }
    {
        Columns::load_at(block, 0)
    }

    pub(crate) fn store(self) -> [u8; 16]
        ensures { result ≡ block_of (columns_state self) }
    {
        let mut block = [0u8; 16];
        parts::paste(&mut block, 0, &self.c0.to_be_bytes());
        parts::paste(&mut block, 4, &self.c1.to_be_bytes());
        parts::paste(&mut block, 8, &self.c2.to_be_bytes());
        parts::paste(&mut block, 12, &self.c3.to_be_bytes());
        block
    }

    // A column for each diagonal, from which ShiftRows makes one.
    fn by_diagonal<F: Fn(u32, u32, u32, u32) -> u32>(self, column: F) -> Columns
        requires { F.IsAlwaysCallable column }
        ensures c0 { F.post column self.c0 self.c1 self.c2 self.c3 result.c0 }
        ensures c1 { F.post column self.c1 self.c2 self.c3 self.c0 result.c1 }
        ensures c2 { F.post column self.c2 self.c3 self.c0 self.c1 result.c2 }
        ensures c3 { F.post column self.c3 self.c0 self.c1 self.c2 result.c3 }
    {
        Columns {
            c0: column(self.c0, self.c1, self.c2, self.c3),
            c1: column(self.c1, self.c2, self.c3, self.c0),
            c2: column(self.c2, self.c3, self.c0, self.c1),
            c3: column(self.c3, self.c0, self.c1, self.c2),
        }
    }
}

// The sum of two states.
impl BitXor for Columns {
    type Output = Columns;

    ghost bitxor_gives = { λ a b sum. columns_state sum ≡ add_round_key (columns_state b) (columns_state a) };

    fn bitxor(self, rhs: Columns) -> Columns {
        Columns {
            c0: self.c0 ^ rhs.c0,
            c1: self.c1 ^ rhs.c1,
            c2: self.c2 ^ rhs.c2,
            c3: self.c3 ^ rhs.c3,
        }
    }
}

// Four bytes of a buffer as a word.
pub(crate) fn word_at(bytes: &[u8], i: usize) -> u32
    requires { i + 4 ≤ length bytes.now }
    ensures { number_word result ≡ word_at bytes.now i }
{
    numbers::be32_at(bytes, i)
}

impl Tables<'_> {
    fn substitute(&self, b: u8) -> u8
        ensures { result ≡ sub_byte b }
    {
        self.sub[b as usize]
    }

    fn mix_entry(&self, b: u8) -> u32
        ensures { number_word result ≡ mix_word (sub_byte b) }
    {
        self.mix[b as usize]
    }

    // One column of SubBytes, ShiftRows and MixColumns: the table has each byte's part, rotated to the byte's row.
    fn mixed(&self, a: u32, b: u32, c: u32, d: u32) -> u32
        ensures { number_word result ≡ mix_column (sub_word (diagonal (number_word a) (number_word b) (number_word c) (number_word d))) }
    {
        let x = self.mix_entry(a.to_be_bytes()[0]);
        let y = self.mix_entry(b.to_be_bytes()[1]).rotate_right(8);
        let z = self.mix_entry(c.to_be_bytes()[2]).rotate_right(16);
        let w = self.mix_entry(d.to_be_bytes()[3]).rotate_right(24);
        x ^ y ^ z ^ w
    }

    // One column of SubBytes and ShiftRows, for the last round. The bytes 1 and 2 of an entry are the substitute itself: each is read where its shift is the shortest.
    fn unmixed(&self, a: u32, b: u32, c: u32, d: u32) -> u32
        ensures { number_word result ≡ sub_word (diagonal (number_word a) (number_word b) (number_word c) (number_word d)) }
    {
        u32::from_be_bytes([
            self.mix_entry(a.to_be_bytes()[0]).to_be_bytes()[1],
            self.mix_entry(b.to_be_bytes()[1]).to_be_bytes()[1],
            self.mix_entry(c.to_be_bytes()[2]).to_be_bytes()[2],
            self.mix_entry(d.to_be_bytes()[3]).to_be_bytes()[2],
        ])
    }

    fn mix_columns(&self, s: Columns) -> Columns
        ensures { columns_state result ≡ mix_columns (shift_rows (sub_bytes (columns_state s))) }
    {
        s.by_diagonal(|a, b, c, d| self.mixed(a, b, c, d))
    }

    fn shift_rows(&self, s: Columns) -> Columns
        ensures { columns_state result ≡ shift_rows (sub_bytes (columns_state s)) }
    {
        s.by_diagonal(|a, b, c, d| self.unmixed(a, b, c, d))
    }

    // SubWord, for the key expansion, which reads the S-box. With the S-box in the last round too a block is slower by a fiftieth or so.
    fn sub_word(&self, w: u32) -> u32
        ensures { number_word result ≡ sub_word (number_word w) }
    {
        let [b0, b1, b2, b3] = w.to_be_bytes();
        u32::from_be_bytes([
            self.substitute(b0),
            self.substitute(b1),
            self.substitute(b2),
            self.substitute(b3),
        ])
    }

    // What the last column adds to the four columns of a round.
    fn last_column_part(&self, w: u32) -> Columns
        ensures { columns_state result ≡ last_column_part (number_word w) }
    {
        let [b0, b1, b2, b3] = w.to_be_bytes();
        Columns {
            c0: self.mix_entry(b3).rotate_right(24),
            c1: self.mix_entry(b2).rotate_right(16),
            c2: self.mix_entry(b1).rotate_right(8),
            c3: self.mix_entry(b0),
        }
    }

    fn next_round_key(&self, i: usize, c: u32, k: Columns) -> Columns
        requires { c ≡ word_number (rcon i) }
        ensures { columns_state result ≡ next_round_key i (columns_state k) }
    {
        let c0 = k.c0 ^ (self.sub_word(k.c3.rotate_right(24)) ^ c);
        let c1 = k.c1 ^ c0;
        let c2 = k.c2 ^ c1;
        let c3 = k.c3 ^ c2;
        Columns { c0, c1, c2, c3 }
    }

    // The 44 words of FIPS 197's key expansion, each with its first byte highest.
    pub(crate) fn expand_key(&self, key: &[u8; 16]) -> [u32; 44]
        ensures { result ≡ expand_key key.now }
    {
        let mut keys = [0u32; 44];
        let mut k = Columns::load(key);
        put_round_key(&mut keys, 0, k);
        let mut c: u32 = 0x01000000;
        for r in 0..10 {
            k = self.next_round_key(r, c, k);
            c = next_constant(r, c);
            put_round_key(&mut keys, r + 1, k);
        }
        keys
    }
}

// Rcon[i + 2] from Rcon[i + 1]: times x, in the first byte. Of the ten constants 0x80 alone passes x^8.
fn next_constant(i: usize, c: u32) -> u32
    requires { (i < 10) × (c ≡ word_number (rcon i)) }
    ensures { result ≡ word_number (rcon (i + 1)) }
{
    if c < 0x80000000 { c * 2 } else { 0x1b000000 }
}

// Four stores: `copy_from_slice` of the four tests for an overlap first, and makes a block slower by a quarter.
fn put_round_key(keys: &mut [u32], r: usize, k: Columns)
    requires { 4 * r + 4 ≤ length keys.old }
    ensures { keys.new ≡ take (4 * r) keys.old ++ state_numbers (columns_state k) ++ drop (4 * r + 4) keys.old }
{
    let i = 4 * r;
    keys[i] = k.c0;
    keys[i + 1] = k.c1;
    keys[i + 2] = k.c2;
    keys[i + 3] = k.c3;
}

// The same words, with the tables taken here.
pub fn expand_key(key: &[u8; 16]) -> [u32; 44]
    ensures { result ≡ expand_key key.now }
{
    Tables::new().expand_key(key)
}

// A key in use: the tables, and the key's expansion.
#[derive(Clone, Copy)]
pub(crate) struct Cipher<'a> {
    pub(crate) tables: &'a Tables<'a>,
    pub(crate) keys: &'a [u32; 44],
}

impl<'a> Cipher<'a> {
    pub(crate) fn new(tables: &'a Tables<'a>, keys: &'a [u32; 44]) -> Self
        ensures { result.keys.now ≡ keys.now }
    {
        Cipher { tables, keys }
    }

    fn round_key(self, r: usize) -> Columns
        requires { r < 11 }
        ensures { columns_state result ≡ kept_key self.entry.keys.now r }
    {
        let i = 4 * r;
        Columns {
            c0: self.keys[i],
            c1: self.keys[i + 1],
            c2: self.keys[i + 2],
            c3: self.keys[i + 3],
        }
    }

    // The rounds after the first `from`, the last one too.
    fn rounds_from(self, from: usize, s: Columns) -> Columns
        requires { from ≤ 9 }
        ensures { (x : State) → columns_state s ≡ after_rounds (kept_key self.entry.keys.now) from x → columns_state result ≡ cipher (kept_key self.entry.keys.now) x }
    {
        let mut state = s;
        for r in from..9 {
            state = self.tables.mix_columns(state) ^ self.round_key(r + 1);
        }
        self.tables.shift_rows(state) ^ self.round_key(10)
    }

    // A state encrypted.
    pub(crate) fn encrypt(self, s: Columns) -> Columns
        ensures { columns_state result ≡ cipher (kept_key self.entry.keys.now) (columns_state s) }
    {
        self.rounds_from(0, s ^ self.round_key(0))
    }

    // The first round of a state, without its last column's part.
    pub(crate) fn shared_round(self, x: Columns) -> Columns
        ensures { columns_state result ≡ shared_round (kept_key self.entry.keys.now) (columns_state x) }
    {
        let s = x ^ self.round_key(0);
        let after = self.tables.mix_columns(s) ^ self.round_key(1);
        after ^ self.tables.last_column_part(s.c3)
    }

    // The encryption of the state that has this last column, from what it shares of the first round.
    pub(crate) fn encrypt_shared(self, shared: Columns, c3: u32) -> Columns
        ensures { (s : State) → s.c3 ≡ number_word c3 → columns_state shared ≡ shared_round (kept_key self.entry.keys.now) s → columns_state result ≡ cipher (kept_key self.entry.keys.now) s }
    {
        let x = shared ^ self.tables.last_column_part(c3 ^ self.keys[3]);
        self.rounds_from(1, x)
    }

    pub(crate) fn encrypt_block(self, block: &[u8; 16]) -> [u8; 16]
        ensures { result ≡ encrypt_with self.entry.keys.now block.now }
    {
        self.encrypt(Columns::load(block)).store()
    }
}

// AES-128: a block encrypted under a key.
pub fn aes128_encrypt(key: [u8; 16], block: [u8; 16]) -> [u8; 16]
    ensures { result ≡ aes128 key block }
{
    let tables = Tables::new();
    let keys = tables.expand_key(&key);
    Cipher::new(&tables, &keys).encrypt_block(&block)
}
