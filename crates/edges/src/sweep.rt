// Words that look at the bytes of card and chip, or try many calls.
use crate::calls::checked_call;
use edge_lines::answer::{Answer, Outcome};
use edge_lines::areas::put;
use edge_lines::args::Args;
use edge_lines::bench::{Bench, LENT, MEDIA, NAME, place_at};
use edge_lines::place::Place;
use edge_lines::values::{read_bytes, some};
use edge_lines::words::{Call, Row, Word};
use text::parts::field;

// A status that no call has: the trials answered differently, or one was refused and changed card or chip. A number and no enum, since docs/EDGES.md has it
// printed as the answer's number.
const MIXED: u64 = 4294967295;

// As many bytes as are expected, from an index on.
pub fn at(line: &[u8], args: Args, bench: &mut Bench) -> Option<Answer> {
    let mut bytes = [0u8; 1024];
    let read = read_bytes(field(line, 4), &mut bytes);
    put(
        &mut bytes,
        0,
        bench.at(args.place, args.values[1], some(read)),
    );
    put(bench.reg_mut(LENT), 0, &bytes);
    let n = read.ok()?;
    bench.index(args.place, args.values[1], n)?;
    Some(Answer::of(&[]).and_bytes(&[n]))
}

// Nothing, where card and chip are those of the copy; else a 1 for each that differs.
pub fn same(args: Args, bench: &Bench) -> Option<Answer> {
    let copy = args.values[0];
    let kept = bench.kept(copy)?;
    if MEDIA <= kept.card {
        return None;
    }
    let card = bench.same(Place::Card, copy, kept);
    let chip = bench.same(Place::Chip, copy, kept);
    if card && chip {
        Some(Answer::of(&[]))
    } else {
        Some(Answer::of(&[u64::from(!card), u64::from(!chip)]))
    }
}

// One call for each of some bits of card or chip, inverted one at a time, or for each of some numbers that one byte is given.
#[derive(Clone, Copy)]
enum Sweep {
    Bits {
        at: usize,
        bytes: usize,
    },
    Numbers {
        at: usize,
        first: usize,
        count: usize,
    },
}

fn low_byte(n: usize) -> u8 {
    (n % 256) as u8
}

impl Sweep {
    fn count(self) -> usize {
        match self {
            Sweep::Bits { bytes, .. } => bytes % 65536 * 8,
            Sweep::Numbers { count, .. } => count,
        }
    }

    // Which byte trial i changes.
    fn index(self, i: usize) -> usize {
        match self {
            Sweep::Bits { at, .. } => at.wrapping_add(i / 8),
            Sweep::Numbers { at, .. } => at,
        }
    }

    // Which of its bits: one, or those in which it differs from the number that it is given.
    fn mask(self, i: usize, byte: u8) -> u8 {
        match self {
            Sweep::Bits { .. } => 1 << (i % 8),
            Sweep::Numbers { first, .. } => byte ^ low_byte(first.wrapping_add(i)),
        }
    }
}

// The call that a sweep tries, by its word.
fn swept(name: &[u8]) -> Option<Call> {
    match Row::of(name)?.word {
        Word::Call(call @ (Call::Set | Call::Get | Call::Info | Call::Remove)) => Some(call),
        _ => None,
    }
}

// The arguments of a sweep's call: its name; for a get all of the output, for a set flags 0 and no data.
fn trial_args(call: Call, name: usize) -> Args {
    let mut args = Args::default();
    args.values[0] = name;
    if matches!(call, Call::Get) {
        args.values[2] = 480;
    }
    args
}

// Trial i: the bits are inverted, and put back after the call.
fn trial(sweep: Sweep, i: usize, call: Call, place: usize, args: Args, bench: &mut Bench) -> u64 {
    let at = place.wrapping_add(sweep.index(i));
    let mask = sweep.mask(i, bench.byte(at));
    bench.flip_byte(at, mask);
    let answer = checked_call(call, args, bench);
    bench.flip_byte(at, mask);
    if answer.outcome == Outcome::Changed {
        MIXED
    } else {
        answer.status()
    }
}

// The status of all trials, or that they differ. The first is run once more, so that it too is held against another.
fn trials(sweep: Sweep, call: Call, place: usize, args: Args, bench: &mut Bench) -> u64 {
    let mut common = trial(sweep, 0, call, place, args, bench);
    for i in 0..sweep.count() {
        if common != trial(sweep, i, call, place, args, bench) {
            common = MIXED;
        }
    }
    common
}

// The call stands in field k, and behind it the name. Every byte that is changed has to stand there, and there has to be one.
fn run(sweep: Sweep, k: usize, line: &[u8], args: Args, bench: &mut Bench) -> Option<Answer> {
    let call = swept(field(line, k))?;
    let last = sweep.count().wrapping_sub(1);
    if 524288 <= last || bench.len(args.place) <= sweep.index(last) {
        return None;
    }
    let tried = trial_args(call, args.values[k % 6]);
    let status = trials(sweep, call, place_at(args.place), tried, bench);
    Some(Answer::call(status, &[]))
}

pub fn bits(line: &[u8], args: Args, bench: &mut Bench) -> Option<Answer> {
    let sweep = Sweep::Bits {
        at: args.values[1],
        bytes: args.values[2],
    };
    run(sweep, 4, line, args, bench)
}

pub fn each(line: &[u8], args: Args, bench: &mut Bench) -> Option<Answer> {
    let first = args.values[2];
    let sweep = Sweep::Numbers {
        at: args.values[1],
        first,
        count: args.values[3].wrapping_add(1).wrapping_sub(first),
    };
    run(sweep, 5, line, args, bench)
}

// 1 where the set of the name "n" and byte i from 0x21 on is done, more than any count where it was refused and changed card or chip.
fn fill_one(i: usize, args: Args, bench: &mut Bench) -> u64 {
    let name = [b'n', low_byte(i.wrapping_add(0x21))];
    put(bench.reg_mut(NAME), 0, &name);
    let mut named = args;
    named.values[0] = 2;
    match checked_call(Call::Set, named, bench).outcome {
        Outcome::Done => 1,
        Outcome::Refused => 0,
        Outcome::Changed => MIXED,
    }
}

// How many of n sets are done. The names go up to "n~", the last before the byte 0x7f, which no name has.
pub fn fill(args: Args, bench: &mut Bench) -> Option<Answer> {
    let n = args.values[0];
    if 94 < n {
        return None;
    }
    let mut done = 0u64;
    for i in 0..n {
        done = done.wrapping_add(fill_one(i, args, bench));
    }
    Some(Answer::of(&[done]))
}
