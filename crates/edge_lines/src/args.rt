// A line's arguments, read as its word takes them.
use crate::bench::Bench;
use crate::place::Place;
use crate::values::{read_bytes, some};
use crate::words::Kind;
use text::decimal::parse_decimal;
use text::parts::field;

// The place that a line names, if one; and of each argument how many bytes, which stand in a register, or a number.
#[derive(Clone, Copy, Default)]
pub struct Args {
    pub place: Place,
    pub values: [usize; 6],
}

impl Args {
    // A number of 32 bits.
    pub fn narrow(self, i: usize) -> u32 {
        (self.values[i % 6] % 4294967296) as u32
    }

    fn read_place(&mut self, s: &[u8]) -> bool {
        match Place::of(s) {
            Some(place) => {
                self.place = place;
                true
            }
            None => false,
        }
    }

    fn set(&mut self, i: usize, read: Result<usize, usize>) -> bool {
        self.values[i % 6] = some(read);
        read.is_ok()
    }

    // Reads argument i, and answers whether it could be read.
    fn read(&mut self, i: usize, kind: Kind, s: &[u8], bench: &mut Bench) -> bool {
        match kind {
            Kind::Bytes => self.set(i, read_bytes(s, bench.reg_mut(i))),
            Kind::BytesAt(register) => self.set(i, read_bytes(s, bench.reg_mut(register))),
            Kind::Floats => {
                let read = self.set(i, read_bytes(s, bench.reg_mut(i)));
                read && self.values[i % 6] % 4 == 0
            }
            Kind::Number(most) => {
                let read = parse_decimal(s, most).map(|n| n as usize);
                self.set(i, read.ok_or(0))
            }
            Kind::Medium => self.read_place(s) && self.place.has_copies(),
            Kind::Place => self.read_place(s),
            Kind::Own => true,
        }
    }
}

// All are read, the last too where an earlier one cannot be. `Err` has what could be read, since a line that prepares goes on with it.
pub fn read_args(kinds: &[Kind], line: &[u8], bench: &mut Bench) -> Result<Args, Args> {
    let mut args = Args::default();
    let mut ok = true;
    for (i, kind) in kinds.iter().enumerate() {
        ok = args.read(i, *kind, field(line, i + 1), bench) && ok;
    }
    if ok { Ok(args) } else { Err(args) }
}
