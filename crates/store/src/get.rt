// Get and info: a record is judged, and its data or its size and flags handed out.
ghost use Rattle.std.specs.Prelude.{◌≡◌, true, [], ◌∷◌, ◌≤◌, ℕ, List, length, IfOk};
ghost use Rattle.std.proofs.Math.Option.{some};
ghost use Rattle.cipher.specs.Device.{IsPrepared};
ghost use Rattle.spec.specs.Record.{require_replay_protection, data_size_of, flags_of};
ghost use Rattle.spec.specs.Area.{kv_format, rbp_format, lookup, sized, intact};
ghost use Rattle.spec.specs.Status.{ok, first_of};
ghost use Rattle.spec.specs.Decisions.{get_held, read_count, read_output};
ghost use Rattle.spec.specs.Calls.{binding_of, store_get, store_get_info};
ghost use Rattle.slots.specs.Found.{found_in};
ghost use Rattle.records.specs.Parts.{ReadyFor};
ghost use Rattle.store.specs.Answers.{status_of, value_or, count_of, no_info};
ghost use Rattle.store.specs.Parts.{get_early, given, binding, binding_given, option_of, authentic, fresh, offset_tests, keyless_tests, keyed_tests, judgement, judged, got_of};

use crate::answers::Info;
use crate::judge::{Held, Judged};
use crate::status::Refusal;
use crate::{guard, judge};
use buffers::parts;
use cipher::kdf;
use cipher::kdf::DeviceKey;
use cipher::tables::Tables;
use records::keys::Keys;
use records::record::Record;
use records::{flags as flag, mac};
use slots::areas::{Area, Found};
use slots::{AreaKind, names};

// 1 to 3: what a get asks before it looks the name up.
pub fn early_status(kv: &[u8], rbp: &[u8], device_key: &[u8], name: &[u8]) -> Result<(), Refusal>
    ensures { status_of result ≡ first_of (get_early kv.now rbp.now device_key.now name.now) }
{
    guard::early_status(kv, rbp, device_key.len() == 16, names::valid_name(name))
}

// The record's CMAC verifies, where integrity is flagged.
fn is_authentic(keys: &Keys, stored: Record<'_>) -> bool
    requires { ReadyFor (flags_of stored.bytes.now) keys.now.device.now }
    ensures { result ≡ authentic keys.now.device.now.key keys.now.name.now stored.entry.bytes.now }
{
    if !flag::require_integrity(stored.flags()) {
        return true;
    }
    keys.mac_difference(stored) == 0
}

// The record is the one that the chip knows, where replay protection is flagged.
fn is_fresh(tag: Option<[u8; 16]>, stored: Record<'_>) -> bool
    ensures { result ≡ fresh (option_of tag) stored.entry.bytes.now }
{
    if !flag::require_replay_protection(stored.flags()) {
        return true;
    }
    match tag {
        Some(tag) => mac::copy_difference(&tag, stored) == 0,
        None => false,
    }
}

// 14, or done.
#[tactic(auto, unfolding(spec::specs::Status::refuse_if))]
fn offset_status(stored: Record<'_>, offset: usize) -> Result<(), Refusal>
    ensures { status_of result ≡ first_of (offset_tests offset stored.entry.bytes.now) }
{
    if (stored.data_size() as usize) < offset {
        return Err(Refusal::Offset);
    }
    Ok(())
}

// 12 where the chip has a name that the card lacks, else 6; then 8: what needs no key. The record, where there is one and it is well formed.
#[tactic(auto, using(crate::proofs::Given::in_chip_given), unfolding(spec::specs::Status::refuse_if))]
pub fn keyless_status<'a>(stored: Option<&'a [u8]>, tag_held: bool) -> Result<Record<'a>, Refusal>
    ensures tests { status_of result ≡ first_of (keyless_tests (binding_given (given stored.entry) tag_held)) }
    ensures stored { IfOk result (λ r. given stored.entry ≡ some r.bytes.now) }
{
    let Some(stored) = stored else {
        if tag_held {
            return Err(Refusal::Rollback);
        }
        return Err(Refusal::NotFound);
    };
    Record::read(stored).ok_or(Refusal::InvalidRecord)
}

// 11, 12 with replay protection and without, 14.
#[tactic(auto, using(crate::proofs::Given::some_option), unfolding(spec::specs::Status::refuse_if))]
pub fn held_status(
    keys: &Keys,
    offset: usize,
    stored: Record<'_>,
    tag: Option<[u8; 16]>,
) -> Result<(), Refusal>
    requires { ReadyFor (flags_of stored.bytes.now) keys.now.device.now }
    ensures { status_of result ≡ first_of (keyed_tests keys.now.device.now.key keys.now.name.now offset stored.entry.bytes.now (option_of tag)) }
{
    if !is_authentic(keys, stored) {
        return Err(Refusal::Authentication);
    }
    if !is_fresh(tag, stored) {
        return Err(Refusal::Rollback);
    }
    judge::downgrade_status(stored.flags(), tag.is_some())?;
    offset_status(stored, offset)
}

// The device key, prepared where the record's flags ask for keys. `accepted_record` and `get` each write out this key and the `Keys` that lend it: a function that
// made both could not hand out what it lends, and one that took the rest as a closure is no plainer.
fn key_for(device_key: &[u8], stored: Record<'_>) -> DeviceKey
    requires { length device_key.now ≡ 16 }
    ensures key_value { result.key ≡ device_key.now }
    ensures ready_for { ReadyFor (flags_of stored.entry.bytes.now) result }
{
    let wanted = flag::needs_keys(stored.flags());
    kdf::prepare_if(wanted, &Tables::new(), parts::array::<16>(device_key))
}

// What a get decides of what the name has: the record, where nothing refuses it.
fn accepted_record<'a>(
    device_key: &[u8],
    name: &[u8],
    offset: usize,
    held: Held<'a>,
) -> Result<Record<'a>, Refusal>
    requires { length device_key.now ≡ 16 }
    ensures tests { status_of result ≡ first_of (get_held require_replay_protection device_key.now name.now offset (binding held.entry)) }
    ensures stored { IfOk result (λ r. given held.entry.stored ≡ some r.bytes.now) }
{
    let stored = keyless_status(held.stored, held.tag.is_some())?;
    let device = key_for(device_key, stored);
    let keys = Keys {
        device: &device,
        name,
    };
    held_status(&keys, offset, stored, held.tag)?;
    Ok(stored)
}

pub fn judge<'a>(
    kv: &'a [u8],
    rbp: &'a [u8],
    device_key: &[u8],
    name: &[u8],
    offset: usize,
) -> Judged<Record<'a>>
    ensures judged { judgement result ≡ judged kv.now rbp.now name.now (get_early kv.now rbp.now device_key.now name.now) (get_held require_replay_protection device_key.now name.now offset (binding_of kv.now rbp.now name.now)) }
    ensures stored { IfOk result.verdict (λ r. lookup kv_format kv.now name.now ≡ some r.bytes.now) }
{
    if let Err(refusal) = early_status(kv, rbp, device_key, name) {
        return judge::refused(refusal);
    }
    let looked = judge::look_up(kv, rbp, name);
    Judged {
        verdict: accepted_record(device_key, name, offset, looked.held),
        found: looked.found,
        entry: looked.entry,
    }
}

// The bytes of an accepted record, from an offset, to the front of the output. Those from its front need no array besides.
pub fn read_record(keys: &Keys, stored: Record<'_>, offset: usize, output: &mut [u8]) -> usize
    requires in_range { offset ≤ data_size_of stored.bytes.now }
    requires ready_for { ReadyFor (flags_of stored.bytes.now) keys.now.device.now }
    ensures value { result ≡ read_count offset output.old stored.entry.bytes.now }
    ensures output_after { output.new ≡ read_output keys.now.device.now.key keys.now.name.now offset output.old stored.entry.bytes.now }
{
    if offset == 0 {
        return keys.open_front(stored, output);
    }
    let plain = keys.open_record(stored);
    let end = stored.data_size() as usize;
    parts::copy_fitting(&plain[offset..end], output)
}

// A get of a record that was found. Plaintext reaches the output only after all tests; what they say is answered, whatever is read.
fn get_record(
    keys: &Keys,
    offset: usize,
    stored: Record<'_>,
    tag: Option<[u8; 16]>,
    output: &mut [u8],
) -> Result<usize, Refusal>
    requires { ReadyFor (flags_of stored.bytes.now) keys.now.device.now }
    ensures { record { status = status_of result; numbers = count_of result ∷ []; output = output.new } ≡ got_of keys.now.device.now.key keys.now.name.now offset stored.entry.bytes.now (option_of tag) output.old }
{
    let verdict = held_status(keys, offset, stored, tag);
    let accepted = verdict.is_ok();
    if accepted {
        let count = read_record(keys, stored, offset, output);
        return verdict.and(Ok(count));
    }
    verdict.and(Ok(0))
}

// A get of a name that was looked up, by the place of its slot on the card and what the chip has.
fn get_found(
    keys: &Keys,
    kv: &[u8],
    found: Found,
    tag: Option<[u8; 16]>,
    offset: usize,
    output: &mut [u8],
) -> Result<usize, Refusal>
    requires sound { (sized kv_format kv.now ≡ true) × (intact kv_format kv.now ≡ true) }
    requires found_value { found ≡ found_in kv_format kv.now keys.now.name.now }
    requires ready { IsPrepared keys.now.device.now }
    ensures { (rbp : List ℕ) → first_of (get_early kv.now rbp keys.now.device.now.key keys.now.name.now) ≡ ok → option_of tag ≡ lookup rbp_format rbp keys.now.name.now → record { status = status_of result; numbers = count_of result ∷ []; output = output.new } ≡ (store_get kv.now rbp keys.now.device.now.key keys.now.name.now offset output.old).answer }
{
    let card = Area {
        kind: AreaKind::Kv,
        bytes: kv,
    };
    let stored = keyless_status(card.payload(found), tag.is_some())?;
    get_record(keys, offset, stored, tag, output)
}

// A get once 1 to 3 have passed, with the device key lent, for who reads many names of one card.
pub fn get_prepared(
    keys: &Keys,
    kv: &[u8],
    rbp: &[u8],
    offset: usize,
    output: &mut [u8],
) -> Result<usize, Refusal>
    requires name_value { first_of (get_early kv.now rbp.now keys.now.device.now.key keys.now.name.now) ≡ ok }
    requires ready { IsPrepared keys.now.device.now }
    ensures { record { status = status_of result; numbers = count_of result ∷ []; output = output.new } ≡ (store_get kv.now rbp.now keys.now.device.now.key keys.now.name.now offset output.old).answer }
{
    let looked = judge::look_up(kv, rbp, keys.name);
    get_found(keys, kv, looked.found, looked.held.tag, offset, output)
}

// Nothing is prepared before the record is there.
pub fn get(
    kv: &[u8],
    rbp: &[u8],
    device_key: &[u8],
    name: &[u8],
    offset: usize,
    output: &mut [u8],
) -> Result<usize, Refusal>
    ensures { record { status = status_of result; numbers = count_of result ∷ []; output = output.new } ≡ (store_get kv.now rbp.now device_key.now name.now offset output.old).answer }
{
    early_status(kv, rbp, device_key, name)?;
    let held = judge::look_up(kv, rbp, name).held;
    let stored = keyless_status(held.stored, held.tag.is_some())?;
    let device = key_for(device_key, stored);
    let keys = Keys {
        device: &device,
        name,
    };
    get_record(&keys, offset, stored, held.tag, output)
}

pub fn get_info(kv: &[u8], rbp: &[u8], device_key: &[u8], name: &[u8]) -> Result<Info, Refusal>
    ensures { record { status = status_of result; numbers = (value_or no_info result).data_size ∷ (value_or no_info result).flags ∷ []; output = [] } ≡ (store_get_info kv.now rbp.now device_key.now name.now).answer }
{
    let stored = judge(kv, rbp, device_key, name, 0).verdict?;
    Ok(Info {
        data_size: stored.data_size(),
        flags: stored.flags(),
    })
}
