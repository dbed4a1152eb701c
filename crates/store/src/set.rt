// Set: a record made from the arguments is put under the name.
ghost use Rattle.std.specs.Prelude.{◌≡◌, true, [], ◌++◌, ◌≤◌, length};
ghost use Rattle.buffers.specs.Bytes.{zero_fill};
ghost use Rattle.spec.specs.Area.{kv_format, rbp_format};
ghost use Rattle.spec.specs.Name.{valid_name};
ghost use Rattle.spec.specs.Record.{require_replay_protection, Sealable, seal_record};
ghost use Rattle.spec.specs.Status.{first_of};
ghost use Rattle.spec.specs.Decisions.{set_held, space_tests};
ghost use Rattle.spec.specs.Calls.{binding_of, room_of, store_set};
ghost use Rattle.spec.specs.Demand2.{Undamaged};
ghost use Rattle.slots.specs.Found.{CanInsert};
ghost use Rattle.store.specs.Answers.{status_of};
ghost use Rattle.store.specs.Parts.{set_arguments, set_early, stored_tests, given, given_if, binding, binding_given, judgement, judged, record_written};

use crate::judge::{Held, Judged};
use crate::status::Refusal;
use crate::{guard, judge};
use buffers::parts;
use cipher::kdf;
use cipher::tables::Tables;
use records::flags as flag;
use records::keys::Keys;
use records::record::Record;
use slots::areas::{Area, Found};
use slots::{AreaKind, areas, names};

// 3 to 5.
#[tactic(auto, unfolding(spec::specs::Status::refuse_if))]
pub fn argument_status(name: &[u8], flags: u32, data: &[u8]) -> Result<(), Refusal>
    ensures { status_of result ≡ first_of (set_arguments name.now flags «data».now) }
{
    if !names::valid_name(name) {
        return Err(Refusal::InvalidName);
    }
    if !flag::valid_flags(flags) {
        return Err(Refusal::InvalidFlags);
    }
    if 480 < data.len() {
        return Err(Refusal::DataSize);
    }
    Ok(())
}

// 1 to 5: what a set asks before it looks the name up. No struct of a set's arguments: C hands them over one by one, and each function here takes others of them.
#[tactic(auto, unfolding(spec::specs::Status::refuse_if))]
pub fn early_status(
    kv: &[u8],
    rbp: &[u8],
    device_key: &[u8],
    name: &[u8],
    flags: u32,
    iv: &[u8],
    data: &[u8],
) -> Result<(), Refusal>
    ensures { status_of result ≡ first_of (set_early kv.now rbp.now device_key.now name.now flags iv.now «data».now) }
{
    guard::guard_areas(kv, rbp, device_key.len() == 16 && iv.len() == 8)?;
    argument_status(name, flags, data)
}

// 8, 7, 9 of the record that the card holds.
#[tactic(auto, unfolding(spec::specs::Status::refuse_if))]
fn stored_status(flags: u32, stored: &[u8]) -> Result<(), Refusal>
    ensures { status_of result ≡ first_of (stored_tests flags stored.now) }
{
    let Some(stored) = Record::read(stored) else {
        return Err(Refusal::InvalidRecord);
    };
    let old_flags = stored.flags();
    if flag::write_once(old_flags) || flag::write_once(flags) {
        return Err(Refusal::AlreadyExists);
    }
    if flags != old_flags {
        return Err(Refusal::FlagsMismatch);
    }
    Ok(())
}

// 8, 7, 9 where the card holds the name; 7 where it does not; then 12.
#[tactic(auto, using(crate::proofs::Given::in_chip_given), unfolding(spec::specs::Status::refuse_if, spec::specs::Decisions::set_held))]
pub fn held_status(flags: u32, stored: Option<&[u8]>, tag_held: bool) -> Result<(), Refusal>
    ensures { status_of result ≡ first_of (set_held require_replay_protection flags (binding_given (given stored.entry) tag_held)) }
{
    match stored {
        Some(stored) => stored_status(flags, stored)?,
        None if flag::write_once(flags) && tag_held => {
            return Err(Refusal::AlreadyExists);
        }
        None => {}
    }
    judge::downgrade_status(flags, tag_held)
}

// 10, or done.
#[tactic(auto, using(crate::proofs::Given::in_chip_given), unfolding(spec::specs::Status::refuse_if))]
pub fn space_status(
    flags: u32,
    held: bool,
    kv_space: bool,
    tag_held: bool,
    rbp_space: bool,
) -> Result<(), Refusal>
    ensures { status_of result ≡ first_of (space_tests require_replay_protection flags (binding_given (given_if held []) tag_held) (record { kv = kv_space; rbp = rbp_space })) }
{
    if !held && !kv_space {
        return Err(Refusal::NoSpace);
    }
    if flag::require_replay_protection(flags) && (!tag_held && !rbp_space) {
        return Err(Refusal::NoSpace);
    }
    Ok(())
}

// The record of the arguments. The device key is prepared once, where the flags ask for keys.
fn make_record(device_key: [u8; 16], name: &[u8], flags: u32, iv: [u8; 8], data: &[u8]) -> [u8; 516]
    requires { length «data».now ≤ 480 }
    ensures { result ≡ zero_fill 516 (seal_record device_key name.now flags iv «data».now) }
{
    let device = kdf::prepare_if(flag::needs_keys(flags), &Tables::new(), device_key);
    let keys = Keys {
        device: &device,
        name,
    };
    keys.seal_record(flags, iv, data)
}

// The record goes to its slot, and with replay protection its CMAC to the chip's.
pub fn write_record(
    kv: &mut [u8],
    rbp: &mut [u8],
    found: Found,
    entry: Found,
    device_key: [u8; 16],
    name: &[u8],
    flags: u32,
    iv: [u8; 8],
    data: &[u8],
)
    requires undamaged { Undamaged kv.old rbp.old }
    requires can_insert { (CanInsert kv_format kv.old found) × (require_replay_protection flags ≡ true → CanInsert rbp_format rbp.old entry) }
    requires name_value { (valid_name name.now ≡ true) × (Sealable flags iv «data».now) }
    ensures { record { kv = kv.new; rbp = rbp.new } ≡ record_written kv.old rbp.old found entry device_key name.now flags iv «data».now }
{
    let record_buf = make_record(device_key, name, flags, iv, data);
    let len = data.len() + 36;
    areas::insert_at(AreaKind::Kv, kv, found, name, &record_buf[0..len]);
    if flag::require_replay_protection(flags) {
        let tag = len - 16;
        areas::insert_at(AreaKind::Rbp, rbp, entry, name, &record_buf[tag..len]);
    }
}

// What a set decides of what the name has, and of room.
fn verdict(kv: &[u8], rbp: &[u8], flags: u32, held: Held<'_>) -> Result<(), Refusal>
    requires { Undamaged kv.now rbp.now }
    ensures { status_of result ≡ first_of (set_held require_replay_protection flags (binding held.entry) ++ space_tests require_replay_protection flags (binding held.entry) (room_of kv.now rbp.now)) }
{
    let tag_held = held.tag.is_some();
    held_status(flags, held.stored, tag_held)?;
    let card = Area {
        kind: AreaKind::Kv,
        bytes: kv,
    };
    let chip = Area {
        kind: AreaKind::Rbp,
        bytes: rbp,
    };
    space_status(
        flags,
        held.stored.is_some(),
        card.has_space(),
        tag_held,
        chip.has_space(),
    )
}

pub fn judge(
    kv: &[u8],
    rbp: &[u8],
    device_key: &[u8],
    name: &[u8],
    flags: u32,
    iv: &[u8],
    data: &[u8],
) -> Judged<()>
    ensures { judgement result ≡ judged kv.now rbp.now name.now (set_early kv.now rbp.now device_key.now name.now flags iv.now «data».now) (set_held require_replay_protection flags (binding_of kv.now rbp.now name.now) ++ space_tests require_replay_protection flags (binding_of kv.now rbp.now name.now) (room_of kv.now rbp.now)) }
{
    if let Err(refusal) = early_status(kv, rbp, device_key, name, flags, iv, data) {
        return judge::refused(refusal);
    }
    let looked = judge::look_up(kv, rbp, name);
    Judged {
        verdict: verdict(kv, rbp, flags, looked.held),
        found: looked.found,
        entry: looked.entry,
    }
}

pub fn set(
    kv: &mut [u8],
    rbp: &mut [u8],
    device_key: &[u8],
    name: &[u8],
    flags: u32,
    iv: &[u8],
    data: &[u8],
) -> Result<(), Refusal>
    ensures { record { answer = record { status = status_of result; numbers = []; output = [] }; after = record { kv = kv.new; rbp = rbp.new } } ≡ store_set kv.old rbp.old device_key.now name.now flags iv.now «data».now }
{
    let judged = judge(kv, rbp, device_key, name, flags, iv, data);
    judged.verdict?;
    let key = parts::array::<16>(device_key);
    let iv8 = parts::array::<8>(iv);
    write_record(
        kv,
        rbp,
        judged.found,
        judged.entry,
        key,
        name,
        flags,
        iv8,
        data,
    );
    Ok(())
}
