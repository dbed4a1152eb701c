// What the crate cipher makes of a line, compared with what is expected.
use crate::counter::xored;
use crate::fields::{Bytes, LONGEST, block, column, field_block, is_bits, number, part, states};
use crate::list::{Entry, Trial};
use buffers::parts::{array, copy_fitting};
use cipher::aes::{aes128_encrypt, expand_key};
use cipher::cmac::{CmacState, cmac_tag};
use cipher::kdf::kdf_counter_cmac;
use text::parts::{field, field_count, line};

// A line that can be tried.
#[derive(Clone, Copy)]
pub struct Case<'a> {
    trial: Trial,
    // all of the file
    text: &'a [u8],
    fields: &'a [u8],
    index: usize,
    key: [u8; 16],
    input: Bytes,
    output: Bytes,
}

impl<'a> Case<'a> {
    // The line at an index, counted from 0 after the header. One with no output would have no trial, and so is not taken.
    pub fn read(entry: Entry<'a>, text: &'a [u8], index: usize) -> Option<Case<'a>> {
        let trial = entry.trial;
        let fields = line(text, index.wrapping_add(1));
        let key = entry.key(fields);
        let input = Bytes::read(entry.input(fields))?;
        let output = Bytes::read(entry.output(fields))?;
        let fits = entry.fits(fields, index)
            && !output.as_slice().is_empty()
            && has_sizes(
                trial,
                fields,
                size(key),
                input.as_slice().len(),
                output.as_slice().len(),
            );
        if !fits {
            return None;
        }
        let key = field_block(key);
        Some(Case {
            trial,
            text,
            fields,
            index,
            key,
            input,
            output,
        })
    }

    // How many trials the line has: one for each block of the output, or for each place where the input can be divided.
    pub fn places(&self) -> usize {
        match self.trial {
            Trial::Feeds | Trial::Parts => self.input.as_slice().len() + 1,
            _ => self.output.as_slice().len().div_ceil(16),
        }
    }

    // Whether the trial at a place, counted from 0, gives what is expected. For two feeds the place is where the input is divided; else it is a block of
    // the output. K1 is added to a message of one block, so that the tag of K1 itself is the encryption of the zero block.
    pub fn passes(&self, place: usize) -> bool {
        let key = self.key;
        let counter = field_block(field(self.fields, 2));
        let input = self.input.as_slice();
        let at = place.saturating_mul(16);
        let found = match self.trial {
            Trial::Words => return word_passes(self.text, self.fields, self.index),
            Trial::Lines => return lines_pass(self.text, self.fields, self.index),
            Trial::Parts => return parts_pass(key, input, place),
            Trial::Empty => return empty_passes(key, block(input, 0)),
            Trial::Feeds => return self.feeds_pass(place),
            Trial::Blocks => aes128_encrypt(key, block(input, at)),
            Trial::CounterBlocks => xored(key, counter, place, part(input, at, 16), 0),
            Trial::Message => xored(key, counter, 0, input, at),
            Trial::Zero => aes128_encrypt(key, [0; 16]),
            Trial::Tag | Trial::K1 => cmac_tag(key, input),
            Trial::Derived => derived(key, place.wrapping_add(1), input),
            Trial::Unknown => [0; 16],
        };
        states(self.output.as_slice(), at, found)
    }

    fn feeds_pass(&self, place: usize) -> bool {
        let input = self.input.as_slice();
        let (first, second) = input.split_at(place.min(input.len()));
        states(
            self.output.as_slice(),
            0,
            fed_twice(self.key, first, second),
        )
    }
}

// How many bytes a field holds.
fn size(f: &[u8]) -> usize {
    Bytes::read(f).map_or(0, |bytes| bytes.as_slice().len())
}

// Whether a CMAC's line states the sizes of message and tag: bits and a whole tag, or bytes and as many bytes of the tag as are kept.
fn has_tag_sizes(line: &[u8], input: usize, output: usize) -> bool {
    if field_count(line) == 6 {
        is_bits(field(line, 2), input) && output == 16
    } else {
        number(field(line, 2)) == Some(input)
            && number(field(line, 4)) == Some(output)
            && output <= 16
    }
}

// Whether the bytes are as many as the trial takes and makes, and as the line states.
fn has_sizes(trial: Trial, line: &[u8], key: usize, input: usize, output: usize) -> bool {
    match trial {
        Trial::Words => output == 4,
        Trial::CounterBlocks | Trial::Message | Trial::Lines => {
            key == 16 && input == output && size(field(line, 2)) == 16
        }
        Trial::Tag | Trial::Feeds => key == 16 && has_tag_sizes(line, input, output),
        Trial::Derived | Trial::Parts => key == 16 && is_bits(field(line, 1), output),
        Trial::Blocks | Trial::Zero | Trial::K1 | Trial::Empty | Trial::Unknown => {
            key == 16 && input == output
        }
    }
}

// The key is the first four words of the text.
fn word_passes(text: &[u8], fields: &[u8], index: usize) -> bool {
    let mut key = [0u8; 16];
    column(text, 1, 4, &mut key);
    let stated = field_block(field(fields, 1));
    let word = u32::from_be_bytes(array::<4>(&stated[..4]));
    expand_key(&key).get(index).copied() == Some(word)
}

// The line's block within the message of four lines, from the first one's counter block.
fn lines_pass(text: &[u8], fields: &[u8], index: usize) -> bool {
    if 4 <= index {
        return false;
    }
    let mut message = [0u8; 64];
    column(text, 4, 16, &mut message);
    let head = line(text, 1);
    let key = field_block(field(head, 1));
    let counter = field_block(field(head, 2));
    let found = xored(key, counter, 0, &message, 16 * index);
    Bytes::read(field(fields, 5)).is_some_and(|bytes| states(bytes.as_slice(), 0, found))
}

// K2 is added to the empty message's padding, 80 00 .. 00.
fn empty_passes(key: [u8; 16], subkey: [u8; 16]) -> bool {
    let mut padded = subkey;
    padded[0] ^= 0x80;
    cmac_tag(key, &[]) == aes128_encrypt(key, padded)
}

// The derivation of one block from a label in two parts is the CMAC of 01, the label and 00 00 00 00 80.
fn parts_pass(key: [u8; 16], label: &[u8], at: usize) -> bool {
    let size = label.len();
    if LONGEST < size {
        return false;
    }
    let mut whole = [0u8; 176];
    whole[0] = 1;
    copy_fitting(label, &mut whole[1..]);
    whole[size + 5] = 0x80;
    let (first, second) = label.split_at(at.min(size));
    kdf_counter_cmac(key, first, second) == cmac_tag(key, &whole[..size + 6])
}

fn fed_twice(key: [u8; 16], first: &[u8], second: &[u8]) -> [u8; 16] {
    let begun = CmacState::keyed(key).begin();
    let end = begun.feed(first).feed(second).finish();
    end.block
}

// Block i of derived bytes is the CMAC of the byte i and the fixed input.
fn derived(key: [u8; 16], i: usize, input: &[u8]) -> [u8; 16] {
    let counter = [(i % 256) as u8];
    fed_twice(key, &counter, input)
}
