// Remove: the name's slot is taken out, and with replay protection the chip's too.
ghost use Rattle.std.specs.Prelude.{◌≡◌, true, [], IfOk};
ghost use Rattle.spec.specs.Record.{flags_of};
ghost use Rattle.spec.specs.Area.{kv_format, rbp_format, lookup};
ghost use Rattle.spec.specs.Status.{first_of};
ghost use Rattle.spec.specs.Decisions.{record_of, remove_held};
ghost use Rattle.spec.specs.Calls.{store_remove};
ghost use Rattle.spec.specs.Demand2.{Undamaged};
ghost use Rattle.slots.specs.Found.{CanRead};
ghost use Rattle.store.specs.Answers.{status_of};
ghost use Rattle.store.specs.Parts.{remove_early, given, judgement, judged, record_erased};

use crate::judge::Judged;
use crate::status::Refusal;
use crate::{guard, judge};
use records::flags as flag;
use records::record::Record;
use slots::areas::Found;
use slots::{AreaKind, areas, names};

// 1 to 3: what a remove asks before it looks the name up.
pub fn early_status(kv: &[u8], rbp: &[u8], name: &[u8]) -> Result<(), Refusal>
    ensures { status_of result ≡ first_of (remove_early kv.now rbp.now name.now) }
{
    guard::early_status(kv, rbp, true, names::valid_name(name))
}

// 6, 8, 7; else the record's flags.
#[tactic(auto, unfolding(spec::specs::Status::refuse_if, spec::specs::Decisions::remove_held))]
pub fn held_status(stored: Option<&[u8]>) -> Result<u32, Refusal>
    ensures tests { status_of result ≡ first_of (remove_held (given stored.entry)) }
    ensures flags { IfOk result (λ f. f ≡ flags_of (record_of (given stored.entry))) }
{
    let Some(stored) = stored else {
        return Err(Refusal::NotFound);
    };
    let Some(stored) = Record::read(stored) else {
        return Err(Refusal::InvalidRecord);
    };
    let flags = stored.flags();
    if flag::write_once(flags) {
        return Err(Refusal::AlreadyExists);
    }
    Ok(flags)
}

// The record's slot is taken out, and with replay protection the chip's, where there is one.
pub fn erase_record(kv: &mut [u8], rbp: &mut [u8], found: Found, entry: Found, flags: u32)
    requires undamaged { Undamaged kv.old rbp.old }
    requires held_value { (found.held ≡ true) × (CanRead kv_format kv.old found) × (CanRead rbp_format rbp.old entry) }
    ensures { record { kv = kv.new; rbp = rbp.new } ≡ record_erased kv.old rbp.old found entry flags }
{
    areas::erase_at(AreaKind::Kv, kv, found);
    if flag::require_replay_protection(flags) && entry.held {
        areas::erase_at(AreaKind::Rbp, rbp, entry);
    }
}

pub fn judge(kv: &[u8], rbp: &[u8], name: &[u8]) -> Judged<u32>
    ensures judged { judgement result ≡ judged kv.now rbp.now name.now (remove_early kv.now rbp.now name.now) (remove_held (lookup kv_format kv.now name.now)) }
    ensures flags { IfOk result.verdict (λ f. f ≡ flags_of (record_of (lookup kv_format kv.now name.now))) }
{
    if let Err(refusal) = early_status(kv, rbp, name) {
        return judge::refused(refusal);
    }
    let looked = judge::look_up(kv, rbp, name);
    Judged {
        verdict: held_status(looked.held.stored),
        found: looked.found,
        entry: looked.entry,
    }
}

pub fn remove(kv: &mut [u8], rbp: &mut [u8], name: &[u8]) -> Result<(), Refusal>
    ensures { record { answer = record { status = status_of result; numbers = []; output = [] }; after = record { kv = kv.new; rbp = rbp.new } } ≡ store_remove kv.old rbp.old name.now }
{
    let judged = judge(kv, rbp, name);
    let flags = judged.verdict?;
    erase_record(kv, rbp, judged.found, judged.entry, flags);
    Ok(())
}
