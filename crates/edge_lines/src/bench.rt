// What lasts from line to line, and the words that prepare it.
ghost use Rattle.std.specs.Prelude.{◌≡◌, ◌+◌, ◌≤◌, length};

use crate::areas::{flip, flip_byte, front, put, span};
use crate::args::Args;
use crate::place::Place;
use crate::print;
use crate::values::{read_bytes, some};
use crate::words::Setup;
use text::parts::field;

pub const CHIP: usize = 37960;

// Card and chip together.
pub const MEDIA: usize = 43290;

pub const REGISTERS: usize = 216450;

pub const MEMORY: usize = 228738;

// The registers of a line's arguments come first; the name of a call that is tried stands in the first of them. Numbers and no enum: an argument's place
// is one too.
pub const NAME: usize = 0;

pub const KEY: usize = 6;

pub const IV: usize = 7;

pub const ATTRIBUTES: usize = 8;

// The buffer that a call is lent.
pub const LENT: usize = 9;

pub const HANDLE: usize = 10;

pub const STAGING: usize = 11;

// How many bytes card and chip had when they were copied.
#[derive(Clone, Copy)]
pub struct Kept {
    pub card: usize,
    pub chip: usize,
}

impl Kept {
    // How many bytes the card's or the chip's part of a copy has, and where it begins.
    fn part(self, place: Place) -> (usize, usize)
        ensures { result.1 ≤ 37960 }
    {
        match place {
            Place::Card | Place::Handle => (self.card, 0),
            Place::Chip | Place::Staging => (self.chip, CHIP),
        }
    }
}

// One buffer has all bytes: the card, the chip, four copies of both, and twelve registers. A card and a chip have room for 65 slots each, one more than a
// call takes. A line that cannot be read may leave a length that is past the room; a part of so many bytes is what `areas` makes of it.
#[derive(Drop)]
pub struct Bench {
    bytes: [u8; MEMORY],
    lens: Lens,
    kept: [Option<Kept>; 4],
    key: usize,
    iv: usize,
}

// How many bytes each place has.
#[derive(Clone, Copy)]
struct Lens {
    card: usize,
    chip: usize,
    handle: usize,
    staging: usize,
}

// Where register k begins.
fn reg_at(k: usize) -> usize
    ensures { result + 1024 ≤ 228738 }
{
    REGISTERS + k % 12 * 1024
}

// Where the bytes of a place begin.
pub fn place_at(place: Place) -> usize {
    match place {
        Place::Card => 0,
        Place::Chip => CHIP,
        Place::Handle => reg_at(HANDLE),
        Place::Staging => reg_at(STAGING),
    }
}

// Where a copy begins.
pub fn copy_at(copy: usize) -> usize
    ensures { result ≤ 173160 }
{
    MEDIA + copy % 4 * MEDIA
}

impl Bench {
    // With a key of 16 and an IV of 8 zeros, whose bytes a program puts there: a value that is written to before it is handed back stands twice on the stack.
    pub fn new() -> Bench {
        Bench {
            bytes: [0; MEMORY],
            lens: Lens {
                card: 0,
                chip: 0,
                handle: 88,
                staging: 0,
            },
            kept: [None; 4],
            key: 16,
            iv: 8,
        }
    }

    // The first bytes of register k.
    pub fn reg(&self, k: usize, n: usize) -> &[u8] {
        span(&self.bytes, reg_at(k), n)
    }

    // All of register k.
    pub fn reg_mut(&mut self, k: usize) -> &mut [u8] {
        let from = reg_at(k);
        &mut self.bytes[from..from + 1024]
    }

    // The bytes of argument i.
    pub fn arg(&self, args: Args, i: usize) -> &[u8] {
        self.reg(i, args.values[i % 6])
    }

    // The first N bytes of register k.
    pub fn first<const N: usize>(&self, k: usize) -> [u8; N] {
        let mut bytes = [0u8; N];
        put(&mut bytes, 0, self.reg(k, N));
        bytes
    }

    // The bytes of a place.
    pub fn all(&self, place: Place) -> &[u8] {
        self.at(place, 0, self.len(place))
    }

    pub fn key(&self) -> &[u8] {
        self.reg(KEY, self.key)
    }

    pub fn iv(&self) -> &[u8] {
        self.reg(IV, self.iv)
    }

    // All bytes of card and chip.
    pub fn media(&self) -> &[u8]
        ensures { length result.now ≡ 43290 }
    {
        &self.bytes[..MEDIA]
    }

    pub fn set_media(&mut self, card: &[u8], chip: &[u8]) {
        put(&mut self.bytes, 0, card);
        put(&mut self.bytes, CHIP, chip);
    }

    pub fn len(&self, place: Place) -> usize {
        match place {
            Place::Card => self.lens.card,
            Place::Chip => self.lens.chip,
            Place::Handle => self.lens.handle,
            Place::Staging => self.lens.staging,
        }
    }

    fn set_len(&mut self, place: Place, n: usize) {
        match place {
            Place::Card => self.lens.card = n,
            Place::Chip => self.lens.chip = n,
            Place::Handle => self.lens.handle = n,
            Place::Staging => self.lens.staging = n,
        }
    }

    // Where an index of a place is, if n bytes stand there from it on.
    pub fn index(&self, place: Place, at: usize, n: usize) -> Option<usize> {
        let len = self.len(place);
        if at <= len && n <= len - at {
            Some(place_at(place).wrapping_add(at))
        } else {
            None
        }
    }

    // n bytes from an index of a place on.
    pub fn at(&self, place: Place, at: usize, n: usize) -> &[u8] {
        span(&self.bytes, place_at(place).wrapping_add(at), n)
    }

    // How many bytes card and chip had in a copy.
    pub fn kept(&self, copy: usize) -> Option<Kept> {
        self.kept.get(copy).copied().flatten()
    }

    // Whether the card or the chip has the bytes of its part of a copy.
    pub fn same(&self, place: Place, copy: usize, kept: Kept) -> bool {
        let (n, base) = kept.part(place);
        let copied = span(&self.bytes, copy_at(copy) + base, n);
        self.len(place) == n && self.all(place) == copied
    }

    // The byte at an index of all, or 0.
    pub fn byte(&self, at: usize) -> u8 {
        self.bytes.get(at).copied().unwrap_or(0)
    }

    pub fn flip_byte(&mut self, at: usize, mask: u8) {
        flip_byte(&mut self.bytes, at, mask);
    }

    fn slots(&mut self, card: usize, chip: usize) -> bool {
        self.bytes[..MEDIA].fill(0);
        self.lens.card = card % 66 * 584;
        self.lens.chip = chip % 66 * 82;
        card < 66 && chip < 66
    }

    // All the room of a place.
    fn room_mut(&mut self, place: Place) -> &mut [u8] {
        match place {
            Place::Card => &mut self.bytes[..CHIP],
            Place::Chip => &mut self.bytes[CHIP..MEDIA],
            Place::Handle => self.reg_mut(HANDLE),
            Place::Staging => self.reg_mut(STAGING),
        }
    }

    // The bytes of a place are read where they stand.
    fn read(&mut self, place: Place, text: &[u8]) -> bool {
        let read = read_bytes(text, self.room_mut(place));
        self.set_len(place, some(read));
        read.is_ok()
    }

    // Bytes written, or bits inverted, from an index on. A flag and no enum: two callers, each with its word beside it.
    fn change(&mut self, flips: bool, args: Args) -> bool {
        let n = args.values[2];
        let Some(at) = self.index(args.place, args.values[1], n) else {
            return false;
        };
        let mut data = [0u8; 1024];
        put(&mut data, 0, self.arg(args, 2));
        if flips {
            flip(&mut self.bytes, at, front(&data, n));
            return true;
        }
        put(&mut self.bytes, at, front(&data, n))
    }

    fn copy(&mut self, from: usize, to: usize, n: usize) -> bool {
        let mut bytes = [0u8; MEDIA];
        let read = put(&mut bytes, 0, span(&self.bytes, from, n));
        put(&mut self.bytes, to, front(&bytes, n)) && read
    }

    fn keep(&mut self, copy: usize) -> bool {
        let kept = Kept {
            card: self.lens.card,
            chip: self.lens.chip,
        };
        let Some(place) = self.kept.get_mut(copy) else {
            return false;
        };
        *place = Some(kept);
        self.copy(0, copy_at(copy), MEDIA)
    }

    fn put_back(&mut self, place: Place, copy: usize) -> bool {
        let Some(kept) = self.kept(copy) else {
            return false;
        };
        let (n, base) = kept.part(place);
        if MEDIA <= n {
            return false;
        }
        self.set_len(place, n);
        self.copy(copy_at(copy) + base, base, n)
    }

    // Whether a line that prepares could be carried out.
    pub fn prepare(&mut self, word: Setup, line: &[u8], args: Args) -> bool {
        let n = args.values[0];
        match word {
            Setup::Slots => return self.slots(n, args.values[1]),
            Setup::Card => return self.read(Place::Card, field(line, 1)),
            Setup::Chip => return self.read(Place::Chip, field(line, 1)),
            Setup::Key => self.key = n,
            Setup::Iv => self.iv = n,
            Setup::Attributes => return n == 20,
            Setup::Handle => return n == 88,
            Setup::Staging => {
                self.lens.staging = n;
                return n <= 512;
            }
            Setup::Poke => return self.change(false, args),
            Setup::Flip => return self.change(true, args),
            Setup::Keep => return self.keep(n),
            Setup::Put => return self.put_back(args.place, args.values[1]),
            Setup::Say => {
                print::text(field(line, 1));
                print::text(b"\n");
            }
        }
        true
    }
}
