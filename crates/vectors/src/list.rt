// The list of trials. An entry has a file, what is tried on its lines, the first line's number or "-", how many fields a line has, and
// which of them hold key, input and output.
use crate::fields::number;
use text::parts::{field, field_count};

// What is tried.
#[derive(Clone, Copy, PartialEq, Eq)]
pub enum Trial {
    Blocks,
    Words,
    CounterBlocks,
    Message,
    Lines,
    Zero,
    K1,
    Empty,
    Tag,
    Feeds,
    Derived,
    Parts,
    // a word that stands for none: blocks of zeros are expected
    Unknown,
}

// The words of the list differ in their first letters.
impl From<&[u8]> for Trial {
    fn from(word: &[u8]) -> Trial {
        match word {
            [b'b', ..] => Trial::Blocks,
            [b'w', ..] => Trial::Words,
            [b'c', ..] => Trial::CounterBlocks,
            [b'm', ..] => Trial::Message,
            [b'l', ..] => Trial::Lines,
            [b'z', ..] => Trial::Zero,
            [b'k', ..] => Trial::K1,
            [b'e', ..] => Trial::Empty,
            [b't', ..] => Trial::Tag,
            [b'f', ..] => Trial::Feeds,
            [b'd', ..] => Trial::Derived,
            [b'p', ..] => Trial::Parts,
            _ => Trial::Unknown,
        }
    }
}

#[derive(Clone, Copy)]
pub struct Entry<'a> {
    pub file: &'a [u8],
    pub trial: Trial,
    // the first line's number, where the lines begin with theirs
    first: Option<usize>,
    fields: usize,
    key: usize,
    input: usize,
    output: usize,
}

impl<'a> Entry<'a> {
    // None where an entry has not its seven fields, or no number in one that stands for one.
    pub fn read(entry: &'a [u8]) -> Option<Entry<'a>> {
        if field_count(entry) != 7 {
            return None;
        }
        let first = number(field(entry, 2));
        if first.is_none() && !matches!(field(entry, 2), b"-") {
            return None;
        }
        Some(Entry {
            file: field(entry, 0),
            trial: Trial::from(field(entry, 1)),
            first,
            fields: number(field(entry, 3))?,
            key: number(field(entry, 4))?,
            input: number(field(entry, 5))?,
            output: number(field(entry, 6))?,
        })
    }

    // The fields of a line that hold key, input and output.
    pub fn key(self, line: &[u8]) -> &[u8] {
        field(line, self.key)
    }

    pub fn input(self, line: &[u8]) -> &[u8] {
        field(line, self.input)
    }

    pub fn output(self, line: &[u8]) -> &[u8] {
        field(line, self.output)
    }

    // Whether a line begins with its number, where the list has the first line's.
    fn is_labelled(self, line: &[u8], index: usize) -> bool {
        match self.first {
            Some(first) => number(field(line, 0)) == Some(first.wrapping_add(index)),
            None => true,
        }
    }

    // Whether a line has as many fields as listed, of which the last says where its values come from.
    fn has_fields(self, line: &[u8]) -> bool {
        let count = field_count(line);
        let origin = field(line, count.saturating_sub(1));
        self.fields == count && matches!(origin, b"published" | b"recalled" | b"computed")
    }

    pub fn fits(self, line: &[u8], index: usize) -> bool {
        self.is_labelled(line, index) && self.has_fields(line)
    }
}
