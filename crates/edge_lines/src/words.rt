// The words that a line begins with, and what each takes.
use crate::bench::{ATTRIBUTES, HANDLE, IV, KEY, LENT, NAME, STAGING};

// What an argument is, and where its bytes go.
#[derive(Clone, Copy)]
pub enum Kind {
    // bytes, to the register of the argument's own number
    Bytes,
    // bytes, to this register
    BytesAt(usize),
    // bytes, four for each float, to the register of the argument's own number
    Floats,
    // a number of at most so much
    Number(u64),
    // card or chip
    Medium,
    Place,
    // what the word reads itself
    Own,
}

const NUMBER: Kind = Kind::Number(u64::MAX);

// Flags, and identifiers of keys.
const FLAGS: Kind = Kind::Number(4294967295);

// The words that prepare.
#[derive(Clone, Copy)]
pub enum Setup {
    Slots,
    Card,
    Chip,
    Key,
    Iv,
    Attributes,
    Handle,
    Staging,
    Poke,
    Flip,
    Keep,
    Put,
    Say,
}

// The calls.
#[derive(Clone, Copy)]
pub enum Call {
    Set,
    Get,
    Info,
    Remove,
    Reset,
    Next,
    Save,
    Load,
    Format,
    Start,
    Add,
    Finalize,
    StoreMix,
    FindMix,
    EncodeMix,
    DecodeMix,
}

#[derive(Clone, Copy)]
pub enum Word {
    Setup(Setup),
    Call(Call),
    At,
    Same,
    Fill,
    Bits,
    Each,
}

// A word and what it takes.
#[derive(Clone, Copy)]
pub struct Row {
    pub word: Word,
    pub kinds: &'static [Kind],
}

const WORDS: [(&[u8], Word, &[Kind]); 34] = [
    (b"slots", Word::Setup(Setup::Slots), &[NUMBER, NUMBER]),
    (b"card", Word::Setup(Setup::Card), &[Kind::Own]),
    (b"chip", Word::Setup(Setup::Chip), &[Kind::Own]),
    (b"key", Word::Setup(Setup::Key), &[Kind::BytesAt(KEY)]),
    (b"iv", Word::Setup(Setup::Iv), &[Kind::BytesAt(IV)]),
    (
        b"attributes",
        Word::Setup(Setup::Attributes),
        &[Kind::BytesAt(ATTRIBUTES)],
    ),
    (
        b"handle",
        Word::Setup(Setup::Handle),
        &[Kind::BytesAt(HANDLE)],
    ),
    (
        b"staging",
        Word::Setup(Setup::Staging),
        &[Kind::BytesAt(STAGING)],
    ),
    (
        b"poke",
        Word::Setup(Setup::Poke),
        &[Kind::Place, NUMBER, Kind::Bytes],
    ),
    (
        b"flip",
        Word::Setup(Setup::Flip),
        &[Kind::Place, NUMBER, Kind::Bytes],
    ),
    (b"keep", Word::Setup(Setup::Keep), &[NUMBER]),
    (b"put", Word::Setup(Setup::Put), &[Kind::Medium, NUMBER]),
    (b"say", Word::Setup(Setup::Say), &[Kind::Own]),
    (
        b"set",
        Word::Call(Call::Set),
        &[Kind::Bytes, FLAGS, Kind::Bytes],
    ),
    (
        b"get",
        Word::Call(Call::Get),
        &[Kind::Bytes, NUMBER, Kind::BytesAt(LENT)],
    ),
    (b"info", Word::Call(Call::Info), &[Kind::Bytes]),
    (b"remove", Word::Call(Call::Remove), &[Kind::Bytes]),
    (b"reset", Word::Call(Call::Reset), &[]),
    (
        b"next",
        Word::Call(Call::Next),
        &[Kind::Bytes, NUMBER, Kind::BytesAt(LENT)],
    ),
    (
        b"save",
        Word::Call(Call::Save),
        &[FLAGS, Kind::Bytes, FLAGS],
    ),
    (
        b"load",
        Word::Call(Call::Load),
        &[FLAGS, Kind::BytesAt(LENT)],
    ),
    (
        b"format",
        Word::Call(Call::Format),
        &[Kind::Bytes, Kind::BytesAt(LENT)],
    ),
    (
        b"start",
        Word::Call(Call::Start),
        &[Kind::Bytes, FLAGS, NUMBER],
    ),
    (b"add", Word::Call(Call::Add), &[Kind::Bytes]),
    (b"finalize", Word::Call(Call::Finalize), &[]),
    (
        b"store_mix",
        Word::Call(Call::StoreMix),
        &[Kind::Bytes, FLAGS, Kind::Bytes],
    ),
    (
        b"find_mix",
        Word::Call(Call::FindMix),
        &[NUMBER, Kind::BytesAt(LENT)],
    ),
    (
        b"encode_mix",
        Word::Call(Call::EncodeMix),
        &[
            NUMBER,
            Kind::Bytes,
            Kind::Floats,
            Kind::Floats,
            Kind::BytesAt(LENT),
        ],
    ),
    (b"decode_mix", Word::Call(Call::DecodeMix), &[Kind::Bytes]),
    (b"at", Word::At, &[Kind::Place, NUMBER]),
    (b"same", Word::Same, &[NUMBER]),
    (b"fill", Word::Fill, &[NUMBER, FLAGS, Kind::Bytes]),
    (
        b"bits",
        Word::Bits,
        &[Kind::Medium, NUMBER, NUMBER, Kind::Own, Kind::BytesAt(NAME)],
    ),
    (
        b"each",
        Word::Each,
        &[
            Kind::Medium,
            NUMBER,
            NUMBER,
            NUMBER,
            Kind::Own,
            Kind::BytesAt(NAME),
        ],
    ),
];

impl Row {
    pub fn of(name: &[u8]) -> Option<Row> {
        let (_, word, kinds) = WORDS.iter().find(|row| row.0 == name).copied()?;
        Some(Row { word, kinds })
    }

    // The field behind the arguments.
    pub fn end(self) -> usize {
        self.kinds.len() + 1
    }
}
