// The numbers that the calls answer with.
ghost use Rattle.std.specs.Prelude.{◌≡◌};
ghost use Rattle.store.specs.Answers.{code, status_of};

// Why a call is refused. Each has its number in the table; a call that is done has 0.
#[derive(Clone, Copy, Debug, PartialEq, Eq)]
pub enum Refusal {
    Length,
    Corrupt,
    InvalidName,
    InvalidFlags,
    DataSize,
    NotFound,
    AlreadyExists,
    InvalidRecord,
    FlagsMismatch,
    NoSpace,
    Authentication,
    Rollback,
    InvalidKeyFile,
    Offset,
    TransferSize,
    InvalidMix,
    Ambiguous,
}

impl Refusal {
    // A function and not a From: the clauses cite `code`, and a second name for it would be no plainer.
    pub fn code(self) -> u32
        ensures { result ≡ code self }
    {
        match self {
            Refusal::Length => 1,
            Refusal::Corrupt => 2,
            Refusal::InvalidName => 3,
            Refusal::InvalidFlags => 4,
            Refusal::DataSize => 5,
            Refusal::NotFound => 6,
            Refusal::AlreadyExists => 7,
            Refusal::InvalidRecord => 8,
            Refusal::FlagsMismatch => 9,
            Refusal::NoSpace => 10,
            Refusal::Authentication => 11,
            Refusal::Rollback => 12,
            Refusal::InvalidKeyFile => 13,
            Refusal::Offset => 14,
            Refusal::TransferSize => 19,
            Refusal::InvalidMix => 20,
            Refusal::Ambiguous => 21,
        }
    }
}

// The number of an answer, for callers that have no enum. A function and not a From: neither Result nor u32 is this crate's.
pub fn number<T: Copy>(answer: Result<T, Refusal>) -> u32
    ensures { result ≡ status_of answer }
{
    match answer {
        Ok(_) => 0,
        Err(refusal) => refusal.code(),
    }
}
