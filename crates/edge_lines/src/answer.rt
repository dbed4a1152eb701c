// What a line's call answered, held against what the line expects.
use crate::areas::{front, span};
use crate::print;
use crate::values::read_bytes;
use text::decimal::parse_decimal;
use text::parts::field;

// How a call went: it was done, refused, or refused and yet changed card or chip.
#[derive(Clone, Copy, PartialEq, Eq)]
pub enum Outcome {
    Done,
    Refused,
    Changed,
}

// Up to three numbers, and up to three runs of bytes, which stand one behind the other in a buffer beside it.
#[derive(Clone, Copy)]
pub struct Answer {
    pub outcome: Outcome,
    pub numbers: [Option<u64>; 3],
    pub runs: [Option<usize>; 3],
}

// The first three of some things.
fn three<T: Copy>(all: &[T]) -> [Option<T>; 3] {
    [
        all.first().copied(),
        all.get(1).copied(),
        all.get(2).copied(),
    ]
}

fn count<T: Copy>(all: &[Option<T>; 3]) -> usize {
    all.iter().flatten().count()
}

impl Answer {
    pub fn of(numbers: &[u64]) -> Self {
        Answer {
            outcome: Outcome::Done,
            numbers: three(numbers),
            runs: [None; 3],
        }
    }

    // Of a call: its status, and the numbers beside it.
    pub fn call(status: u64, others: &[u64]) -> Self {
        Answer {
            outcome: if status == 0 {
                Outcome::Done
            } else {
                Outcome::Refused
            },
            numbers: [
                Some(status),
                others.first().copied(),
                others.get(1).copied(),
            ],
            runs: [None; 3],
        }
    }

    // Of a call that left card and chip as another than before, or not.
    pub fn and_changed(self, changed: bool) -> Self {
        match self.outcome {
            Outcome::Refused if changed => Answer {
                outcome: Outcome::Changed,
                ..self
            },
            _ => self,
        }
    }

    // With runs of bytes.
    pub fn and_bytes(self, counts: &[usize]) -> Self {
        Answer {
            runs: three(counts),
            ..self
        }
    }

    // The first number.
    pub fn status(self) -> u64 {
        self.numbers[0].unwrap_or(0)
    }

    // Whether the numbers stand in the fields from k on.
    fn numbers_match(&self, line: &[u8], k: usize) -> bool {
        self.numbers.iter().flatten().enumerate().all(|(i, n)| parse_decimal(
            field(line, k.wrapping_add(i)),
            u64::MAX,
        ) == Some(*n))
    }

    // Whether the runs of bytes stand in the fields from k on.
    fn runs_match(&self, line: &[u8], k: usize, out: &[u8]) -> bool {
        let mut at = 0usize;
        for (i, n) in self.runs.iter().flatten().enumerate() {
            if !stands(field(line, k.wrapping_add(i)), span(out, at, *n)) {
                return false;
            }
            at = at.wrapping_add(*n);
        }
        true
    }

    // Whether the fields from k on, up to the last, are just the answer: its numbers, and behind them its bytes.
    pub fn matches(&self, line: &[u8], k: usize, fields: usize, out: &[u8]) -> bool {
        let end = k.wrapping_add(count(&self.numbers));
        self.outcome != Outcome::Changed
            && fields == end.wrapping_add(count(&self.runs))
            && self.numbers_match(line, k)
            && self.runs_match(line, end, out)
    }

    // As the line would have to say it.
    pub fn print(&self, out: &[u8]) {
        if self.outcome == Outcome::Changed {
            print::text(b"refused, and changed card or chip: ");
        }
        print::text(b"answered");
        self.print_numbers();
        self.print_runs(out);
        print::text(b"\n");
    }

    fn print_numbers(&self) {
        for n in self.numbers.iter().flatten() {
            print::text(b"\t");
            print::number(*n);
        }
    }

    fn print_runs(&self, out: &[u8]) {
        let mut at = 0usize;
        for n in self.runs.iter().flatten() {
            print::text(b"\t");
            print::bytes(span(out, at, *n));
            at = at.wrapping_add(*n);
        }
    }
}

// Whether a field has just these bytes.
fn stands(f: &[u8], bytes: &[u8]) -> bool {
    let mut expected = [0u8; 1024];
    match read_bytes(f, &mut expected) {
        Ok(n) => front(&expected, n) == bytes,
        Err(_) => false,
    }
}
