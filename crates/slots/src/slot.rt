// One slot: whether it is well shaped, who uses it, what it may stand in front of, and how it is written.
ghost use Rattle.std.specs.Prelude.{◌≡◌, true, ◌++◌, ◌≤◌, length, drop, IfSome};
ghost use Rattle.std.specs.Option.{is_some};
ghost use Rattle.std.proofs.Math.Option.{some};
ghost use Rattle.spec.specs.Slots.{in_order};
ghost use Rattle.spec.specs.Area.{payload_size, slot_free, slot_holder, slot_name, slot_payload, slot_used, slot_valid, holds, make_slot};
ghost use Rattle.spec.specs.Calls.{has_prefix, name_has_prefix};
ghost use Rattle.slots.specs.Kind.{format_of};
ghost use Rattle.slots.specs.Holder.{lent};

use crate::{AreaKind, names};
use buffers::{compare, numbers, parts};

// How many bytes a slot says that it holds, which may be more than it can.
fn payload_len(kind: AreaKind, slot: &[u8]) -> usize
    requires { length slot.now ≡ (format_of kind).slot_size }
    ensures { result ≡ (format_of kind).payload_length slot.now }
{
    match kind {
        AreaKind::Kv => numbers::le_at(slot, 2, 2) as usize,
        AreaKind::Rbp => 16,
    }
}

// 01: a used slot, well shaped. What the slot says of lengths is bounded before it is an index.
fn slot_used(kind: AreaKind, slot: &[u8]) -> bool
    requires { length slot.now ≡ (format_of kind).slot_size }
    ensures { result ≡ slot_used (format_of kind) slot.now }
{
    if slot[0] != 1 {
        return false;
    }
    let n = slot[1] as usize;
    if 64 < n {
        return false;
    }
    let at = kind.name_offset();
    let after = at + n;
    if !names::valid_name(&slot[at..after]) {
        return false;
    }
    let payload = kind.payload_offset();
    let m = payload_len(kind, slot);
    if slot.len() - payload < m {
        return false;
    }
    if !compare::all_zero(&slot[after..payload]) {
        return false;
    }
    let end = payload + m;
    compare::all_zero(&slot[end..])
}

// 01: "well shaped"
pub fn slot_valid(kind: AreaKind, slot: &[u8]) -> bool
    requires { length slot.now ≡ (format_of kind).slot_size }
    ensures { result ≡ slot_valid (format_of kind) slot.now }
{
    if slot[0] == 0 {
        compare::all_zero(slot)
    } else {
        slot_used(kind, slot)
    }
}

// A slot that is well shaped.
#[derive(Clone, Copy)]
pub(crate) struct Slot<'a> {
    pub kind: AreaKind,
    pub bytes: &'a [u8],
    ghost shaped: { (length bytes.now ≡ (format_of kind).slot_size) × (slot_valid (format_of kind) bytes.now ≡ true) },
}

impl<'a> Slot<'a> {
    pub fn checked(kind: AreaKind, bytes: &'a [u8]) -> Option<Slot<'a>>
        requires { length bytes.now ≡ (format_of kind).slot_size }
        ensures some { is_some result ≡ slot_valid (format_of kind) bytes.now }
        ensures parts { IfSome result (λ slot. (slot.kind ≡ kind) × (slot.bytes.now ≡ bytes.now)) }
    {
        if slot_valid(kind, bytes) {
            Some(Slot { kind, bytes })
        } else {
            None
        }
    }

    pub fn is_free(&self) -> bool
        ensures { result ≡ slot_free self.now.bytes.now }
    {
        self.bytes[0] == 0
    }

    pub fn name(&self) -> &'a [u8]
        requires { slot_used (format_of self.now.kind) self.now.bytes.now ≡ true }
        ensures { result.now ≡ slot_name (format_of self.now.kind) self.now.bytes.now }
    {
        let n = self.bytes[1] as usize;
        let at = self.kind.name_offset();
        let end = at + n;
        &self.bytes[at..end]
    }

    pub fn payload(&self) -> &'a [u8]
        requires { slot_used (format_of self.now.kind) self.now.bytes.now ≡ true }
        ensures { result.now ≡ slot_payload (format_of self.now.kind) self.now.bytes.now }
    {
        let m = payload_len(self.kind, self.bytes);
        let at = self.kind.payload_offset();
        let end = at + m;
        &self.bytes[at..end]
    }

    // The name that uses it.
    fn holder(&self) -> Option<&'a [u8]>
        ensures { lent result ≡ slot_holder (format_of self.now.kind) self.now.bytes.now }
    {
        if self.is_free() {
            None
        } else {
            Some(self.name())
        }
    }

    pub fn holds(&self, name: &[u8]) -> bool
        ensures { result ≡ holds (format_of self.now.kind) name.now self.now.bytes.now }
    {
        match self.holder() {
            Some(held) => compare::bytes_equal(name, held),
            None => false,
        }
    }

    // Whether it stands before a name: in byte order, a free one behind all.
    pub fn precedes(&self, name: &[u8]) -> bool
        ensures { result ≡ in_order (slot_holder (format_of self.now.kind) self.now.bytes.now) (some name.now) }
    {
        match self.holder() {
            Some(held) => compare::precedes(held, name),
            None => false,
        }
    }

    // 02, No. 7: whether it may stand in front of another.
    pub fn may_precede(&self, next: &Slot) -> bool
        ensures { result ≡ in_order (slot_holder (format_of self.now.kind) self.now.bytes.now) (slot_holder (format_of next.now.kind) next.now.bytes.now) }
    {
        match next.holder() {
            Some(name) => self.precedes(name),
            None => true,
        }
    }

    pub fn has_prefix(&self, prefix: &[u8]) -> bool
        ensures { result ≡ name_has_prefix prefix.now (slot_holder (format_of self.now.kind) self.now.bytes.now) }
    {
        match self.holder() {
            Some(name) => has_prefix(name, prefix),
            None => false,
        }
    }
}

pub fn has_prefix(name: &[u8], prefix: &[u8]) -> bool
    ensures { result ≡ has_prefix prefix.now name.now }
{
    prefix.len() <= name.len() && compare::bytes_equal(prefix, &name[..prefix.len()])
}

fn put_header(kind: AreaKind, slot: &mut [u8], name: &[u8], payload: &[u8])
    requires { (length slot.old ≡ (format_of kind).slot_size) × (length name.now ≤ 64) × (length payload.now ≤ 516) }
    ensures { slot.new ≡ (format_of kind).header name.now payload.now ++ drop (format_of kind).name_offset slot.old }
{
    let front = [1u8, name.len() as u8];
    parts::paste(slot, 0, &front);
    match kind {
        AreaKind::Kv => numbers::put_le_at(payload.len() as u32, slot, 2, 2),
        AreaKind::Rbp => {}
    }
}

// The whole slot anew, so that nothing of the old one is left behind the name or the payload.
pub(crate) fn make_slot(kind: AreaKind, slot: &mut [u8], name: &[u8], payload: &[u8])
    requires { (length slot.old ≡ (format_of kind).slot_size) × (length name.now ≤ 64) × (length payload.now ≤ payload_size (format_of kind)) }
    ensures { slot.new ≡ make_slot (format_of kind) name.now payload.now }
{
    parts::clear(slot);
    put_header(kind, slot, name, payload);
    parts::paste(slot, kind.name_offset(), name);
    parts::paste(slot, kind.payload_offset(), payload);
}
