// An area of slots, tested and edited where it is lent.
ghost use Rattle.std.specs.Prelude.{◌≡◌, true, [], ◌++◌, ◌-◌, ◌≤◌, ◌<◌, ◌&&◌, ℕ, List, Bool, length, get_or, take, drop};
ghost use Rattle.std.specs.Option.{option_copied};
ghost use Rattle.buffers.specs.Bytes.{zeros};
ghost use Rattle.spec.specs.Slots.{first_index};
ghost use Rattle.spec.specs.Area.{kv_format, payload_size, slot_free, slot_used, slot_name, make_slot, slot_count, slots, sized, intact, has_space};
ghost use Rattle.spec.specs.Calls.{slot_has_prefix, next_match};
ghost use Rattle.slots.specs.Kind.{format_of};
ghost use Rattle.slots.specs.Search.{Tests, FailsBefore};
ghost use Rattle.slots.specs.Found.{slot_for, found_in, slot_at, CanRead, CanInsert, payload, payload_at, insert_end, insert_at, erase_at};

use crate::AreaKind;
use crate::slot::{self, Slot};
use buffers::{compare, parts};

pub fn slot_count(kind: AreaKind, area: &[u8]) -> usize
    ensures { result ≡ slot_count (format_of kind) area.now }
{
    area.len() / kind.slot_size()
}

// 01: "1 to 64 places", and no byte besides
pub fn area_sized(kind: AreaKind, area: &[u8]) -> bool
    ensures { result ≡ sized (format_of kind) area.now }
{
    let w = kind.slot_size();
    let k = area.len() / w;
    area.len() == k * w && 1 <= k && k <= 64
}

fn slot_at<'a>(kind: AreaKind, area: &'a [u8], i: usize) -> &'a [u8]
    requires { (sized (format_of kind) area.now ≡ true) × (i < slot_count (format_of kind) area.now) }
    ensures { result.now ≡ get_or (slots (format_of kind) area.now) i [] }
{
    let w = kind.slot_size();
    let at = i * w;
    let end = at + w;
    &area[at..end]
}

// 01: no "damage", and 02, No. 7: "any other order is damage". Neighbours in order are all in order. Behind a free slot every slot is free: from the first
// one on, the area is zero, which one pass tests.
pub fn area_intact(kind: AreaKind, area: &[u8]) -> bool
    requires { sized (format_of kind) area.now ≡ true }
    ensures { result ≡ intact (format_of kind) area.now }
{
    // By number: from slot i on, all that is left of the area is tested as one run of zeros, which no iterator over slots hands out.
    let w = kind.slot_size();
    if !slot::slot_valid(kind, slot_at(kind, area, 0)) {
        return false;
    }
    for i in 1..slot_count(kind, area) {
        let at = i * w;
        if area[at] == 0 {
            return compare::all_zero(&area[at..]);
        }
        let Some(slot) = Slot::checked(kind, slot_at(kind, area, i)) else {
            return false;
        };
        let before = Slot {
            kind,
            bytes: slot_at(kind, area, i - 1),
        };
        if !before.may_precede(&slot) {
            return false;
        }
    }
    true
}

// Where a name's slot is: its own, or, where the area does not hold the name, the one that it would take; the count of slots, where that is behind all.
// No `Result` as of std's searches: the place is needed whichever it is, and each definition would match to take the same number out of both.
#[derive(Clone, Copy, PartialEq, Eq, Debug)]
pub struct Found {
    pub at: usize,
    pub held: bool,
}

// An area of right length without damage.
#[derive(Clone, Copy)]
pub struct Area<'a> {
    pub kind: AreaKind,
    pub bytes: &'a [u8],
    ghost sound: { (sized (format_of kind) bytes.now ≡ true) × (intact (format_of kind) bytes.now ≡ true) },
}

impl<'a> Area<'a> {
    pub fn slot_count(&self) -> usize
        ensures { result ≡ slot_count (format_of self.now.kind) self.now.bytes.now }
    {
        slot_count(self.kind, self.bytes)
    }

    fn slot(&self, i: usize) -> Slot<'a>
        requires { i < slot_count (format_of self.now.kind) self.now.bytes.now }
        ensures kind { result.kind ≡ self.now.kind }
        ensures bytes { result.bytes.now ≡ slot_at (format_of self.now.kind) self.now.bytes.now i }
    {
        Slot {
            kind: self.kind,
            bytes: slot_at(self.kind, self.bytes, i),
        }
    }

    // The first slot that passes the test, or the count of slots, by binary search. Std's `partition_point` is of a slice of elements, and an area is one of
    // bytes, with slots as wide as its kind says.
    fn first_where<P: Fn(&Slot) -> bool>(&self, test: P) -> usize
        requires { P.IsAlwaysCallable test }
        ensures { (t : List ℕ → Bool) → Tests self.now.kind (P.post test) t → FailsBefore t (slots (format_of self.now.kind) self.now.bytes.now) → result ≡ first_index t (slots (format_of self.now.kind) self.now.bytes.now) }
    {
        let mut low = 0;
        let mut high = self.slot_count();
        while low < high {
            let mid = (low + high) / 2;
            if test(&self.slot(mid)) {
                high = mid;
            } else {
                low = mid + 1;
            }
        }
        low
    }

    // The first free slot, or the count of slots: the used ones stand at the front.
    fn first_free(&self) -> usize
        ensures { result ≡ first_index slot_free (slots (format_of self.now.kind) self.now.bytes.now) }
    {
        self.first_where(|slot| slot.is_free())
    }

    // The first slot that does not stand before the name, or the count of slots.
    fn slot_for(&self, name: &[u8]) -> usize
        ensures { result ≡ slot_for (format_of self.now.kind) self.now.bytes.now name.now }
    {
        self.first_where(|slot| !slot.precedes(name))
    }

    // The last slot tells: the used ones stand at the front.
    pub fn has_space(&self) -> bool
        ensures { result ≡ has_space (format_of self.now.kind) self.now.bytes.now }
    {
        self.slot(self.slot_count() - 1).is_free()
    }

    pub fn find(&self, name: &[u8]) -> Found
        ensures { result ≡ found_in (format_of self.now.kind) self.now.bytes.now name.now }
    {
        let at = self.slot_for(name);
        let held = at < self.slot_count() && self.slot(at).holds(name);
        Found { at, held }
    }

    // What the slot that was found holds for the name.
    pub fn payload(&self, found: Found) -> Option<&'a [u8]>
        requires { CanRead (format_of self.now.kind) self.now.bytes.now found }
        ensures { option_copied result ≡ payload (format_of self.now.kind) self.now.bytes.now found }
    {
        if found.held {
            Some(self.slot(found.at).payload())
        } else {
            None
        }
    }

    // The name of a slot that is used.
    pub fn name_at(&self, i: usize) -> &'a [u8]
        requires { (i < slot_count (format_of self.now.kind) self.now.bytes.now) × (slot_used (format_of self.now.kind) (slot_at (format_of self.now.kind) self.now.bytes.now i) ≡ true) }
        ensures { result.now ≡ slot_name (format_of self.now.kind) (slot_at (format_of self.now.kind) self.now.bytes.now i) }
    {
        name_at(self.kind, self.bytes, i)
    }

    // Whether a slot of the card is used by a name with the prefix.
    pub fn prefix_at(&self, prefix: &[u8], i: usize) -> bool
        requires { (self.now.kind ≡ AreaKind.Kv) × (i < slot_count kv_format self.now.bytes.now) }
        ensures { result ≡ slot_has_prefix prefix.now (slot_at kv_format self.now.bytes.now i) }
    {
        self.slot(i).has_prefix(prefix)
    }

    // 01: the next slot of a "walk", which goes over the card. By numbers, of which one is the answer.
    pub fn next_match(&self, prefix: &[u8], start: usize) -> usize
        requires { self.now.kind ≡ AreaKind.Kv }
        ensures { result ≡ next_match self.now.bytes.now prefix.now start }
    {
        let k = self.slot_count();
        for i in start..k {
            if self.prefix_at(prefix, i) {
                return i;
            }
        }
        start.max(k)
    }

    // The slot behind the last that an insert writes: the name's own, or the first free one.
    fn insert_end(&self, found: Found) -> usize
        requires { CanInsert (format_of self.now.kind) self.now.bytes.now found }
        ensures { result ≡ insert_end (format_of self.now.kind) self.now.bytes.now found }
    {
        if found.held {
            return found.at + 1;
        }
        self.first_free() + 1
    }
}

// A new slot in front of those of a part, of which the last one goes. Here, in `insert_at` and in `make_slot` the lengths are asked for one by one: callers
// have the name and the payload from different places, so that a struct of both would be built for one call, and is no plainer.
fn put_first(kind: AreaKind, part: &mut [u8], name: &[u8], payload: &[u8])
    requires kind_in_bounds { (format_of kind).slot_size ≤ length part.old }
    requires name_len_bound { (length name.now ≤ 64) × (length payload.now ≤ payload_size (format_of kind)) }
    ensures { part.new ≡ make_slot (format_of kind) name.now payload.now ++ take (length part.old - (format_of kind).slot_size) part.old }
{
    let w = kind.slot_size();
    parts::move_up(part, w);
    slot::make_slot(kind, &mut part[0..w], name, payload);
}

// The first slot of a part taken out, and a free one behind the others.
fn take_first(kind: AreaKind, part: &mut [u8])
    requires { (format_of kind).slot_size ≤ length part.old }
    ensures { part.new ≡ drop (format_of kind).slot_size part.old ++ zeros (format_of kind).slot_size }
{
    let w = kind.slot_size();
    parts::move_down(part, w);
    let end = part.len();
    let last = end - w;
    parts::clear(&mut part[last..end]);
}

// 02, No. 7: "A set inserts". The used slots from there on move as one block, over the first free one.
pub fn insert_at(kind: AreaKind, area: &mut [u8], found: Found, name: &[u8], payload: &[u8])
    requires area_value { (sized (format_of kind) area.old ≡ true) × (intact (format_of kind) area.old ≡ true) × (CanInsert (format_of kind) area.old found) }
    requires name_len_bound { (length name.now ≤ 64) × (length payload.now ≤ payload_size (format_of kind)) }
    ensures { area.new ≡ insert_at (format_of kind) area.old found name.now payload.now }
{
    let w = kind.slot_size();
    let start = found.at * w;
    let end = Area { kind, bytes: area }.insert_end(found) * w;
    put_first(kind, &mut area[start..end], name, payload);
}

// 02, No. 7: "a remove closes up". The used slots behind it move as one block.
pub fn erase_at(kind: AreaKind, area: &mut [u8], found: Found)
    requires area_value { (sized (format_of kind) area.old ≡ true) × (intact (format_of kind) area.old ≡ true) }
    requires held_value { (found.held ≡ true) × (CanRead (format_of kind) area.old found) }
    ensures { area.new ≡ erase_at (format_of kind) area.old found }
{
    let w = kind.slot_size();
    let start = found.at * w;
    let end = Area { kind, bytes: area }.first_free() * w;
    take_first(kind, &mut area[start..end]);
}

// What is held for a name that is known to be held, in any area of right length; nothing, where it is not held. `Area::payload` tells the two apart.
pub fn payload_at<'a>(kind: AreaKind, area: &'a [u8], found: Found) -> &'a [u8]
    requires { (sized (format_of kind) area.now ≡ true) × (CanRead (format_of kind) area.now found) }
    ensures { result.now ≡ payload_at (format_of kind) area.now found }
{
    if found.held {
        let bytes = slot_at(kind, area, found.at);
        Slot { kind, bytes }.payload()
    } else {
        &area[0..0]
    }
}

// The name of a slot in use, whatever the rest of the area is.
pub fn name_at<'a>(kind: AreaKind, area: &'a [u8], i: usize) -> &'a [u8]
    requires { (sized (format_of kind) area.now ≡ true) × (i < slot_count (format_of kind) area.now) × (slot_used (format_of kind) (slot_at (format_of kind) area.now i) ≡ true) }
    ensures { result.now ≡ slot_name (format_of kind) (slot_at (format_of kind) area.now i) }
{
    let bytes = slot_at(kind, area, i);
    Slot { kind, bytes }.name()
}
