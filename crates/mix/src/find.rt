// 02: "reconnecting": the mix of a session is looked for among all records of mixes. Card and chip are judged once, not for each record.
ghost use Rattle.std.specs.Prelude.{◌≡◌, [], ◌∷◌, ◌≤◌, ◌<◌, length, IfOk};
ghost use Rattle.cipher.specs.Device.{IsPrepared};
ghost use Rattle.spec.specs.Status.{ok, first_of};
ghost use Rattle.spec.specs.Area.{kv_format, slot_count, slots};
ghost use Rattle.spec.specs.Decisions.{key_sized};
ghost use Rattle.slots.specs.Found.{slot_at};
ghost use Rattle.store.specs.Answers.{status_of, value_or, count_of};
ghost use Rattle.store.specs.Parts.{area_tests, get_early};
ghost use Rattle.mix.specs.Calls.{find_encoded_mix, find_mix_by_session};
ghost use Rattle.mix.specs.Mix.{zero_mix};
ghost use Rattle.mix.specs.Search.{try_record, one_more, try_slot, scan, search_status};
ghost use Rattle.mix.specs.declared.find.Matches.TheVariants.{Zero, One};

use crate::monitor::MonitorMix;
use crate::{codec, monitor, persist, session};
use buffers::parts;
use cipher::kdf;
use cipher::kdf::DeviceKey;
use cipher::tables::Tables;
use records::keys::Keys;
use slots::AreaKind;
use slots::areas::Area;
use store::status::Refusal;
use store::{get, guard};

// The records of a session in the slots so far: none, one at a place, or more.
#[derive(Clone, Copy)]
pub enum Matches {
    Zero,
    One(usize),
    More,
}

impl Matches {
    fn with(self, at: usize) -> Matches
        ensures { result ≡ one_more self at }
    {
        match self {
            Matches::Zero => Matches::One(at),
            Matches::One(_) => Matches::More,
            Matches::More => Matches::More,
        }
    }

    // 21 for two or more, 6 for none.
    #[tactic(auto, unfolding(crate::specs::Search::search_status, spec::specs::Status::refuse_if))]
    fn only(self) -> Result<usize, Refusal>
        ensures number { status_of result ≡ search_status (record { status = ok; seen = self }) }
        ensures at { IfOk result (λ at. self ≡ One at) }
    {
        match self {
            Matches::Zero => Err(Refusal::NotFound),
            Matches::One(at) => Ok(at),
            Matches::More => Err(Refusal::Ambiguous),
        }
    }
}

// What a search lends each get: card and chip, judged, and the device key, prepared.
#[derive(Clone, Copy)]
struct Records<'a> {
    kv: &'a [u8],
    rbp: &'a [u8],
    device: &'a DeviceKey,
    ghost passed: { first_of (area_tests kv.now rbp.now (key_sized device.now.key)) ≡ ok },
    ghost prepared: { IsPrepared device.now },
}

impl<'a> Records<'a> {
    fn card(&self) -> Area<'a>
        ensures { (result.kind ≡ AreaKind.Kv) × (result.bytes.now ≡ self.now.kv.now) }
    {
        Area {
            kind: AreaKind::Kv,
            bytes: self.kv,
        }
    }

    // One record of a mix: as get, then 20; where it is accepted, its session number.
    fn session_of(&self, name: &[u8]) -> Result<u64, Refusal>
        requires { first_of (get_early self.now.kv.now self.now.rbp.now self.now.device.now.key name.now) ≡ ok }
        ensures { record { status = status_of result; session_id = value_or 0 result } ≡ try_record self.now.kv.now self.now.rbp.now self.now.device.now.key name.now }
    {
        let mut data = [0u8; 480];
        let keys = Keys {
            device: self.device,
            name,
        };
        let count = get::get_prepared(&keys, self.kv, self.rbp, 0, &mut data)?;
        if !codec::mix_valid(&data[..count]) {
            return Err(Refusal::InvalidMix);
        }
        Ok(session::session_at(&data[..count]))
    }

    fn try_slot(&self, session_id: u64, i: usize, seen: Matches) -> Result<Matches, Refusal>
        requires { i < slot_count kv_format self.now.kv.now }
        ensures { record { status = status_of result; seen = value_or Zero result } ≡ try_slot self.now.kv.now self.now.rbp.now self.now.device.now.key session_id i (slot_at kv_format self.now.kv.now i) seen }
    {
        let card = self.card();
        let prefix = persist::MIX_PREFIX;
        if !card.prefix_at(&prefix, i) {
            return Ok(seen);
        }
        if self.session_of(card.name_at(i))? == session_id {
            Ok(seen.with(i))
        } else {
            Ok(seen)
        }
    }

    fn search(&self, session_id: u64) -> Result<Matches, Refusal>
        ensures { record { status = status_of result; seen = value_or Zero result } ≡ scan self.now.kv.now self.now.rbp.now self.now.device.now.key session_id 0 (slots kv_format self.now.kv.now) Zero }
    {
        let mut seen = Matches::Zero;
        for i in 0..self.card().slot_count() {
            seen = self.try_slot(session_id, i, seen)?;
        }
        Ok(seen)
    }

    // The search, then the bytes of the one record that holds the session, at the front of a buffer.
    fn find(&self, session_id: u64, mix_buf: &mut [u8]) -> Result<usize, Refusal>
        requires { 153 ≤ length mix_buf.old }
        ensures { record { status = status_of result; numbers = count_of result ∷ []; output = mix_buf.new } ≡ find_encoded_mix self.now.kv.now self.now.rbp.now self.now.device.now.key session_id mix_buf.old }
    {
        let seen = self.search(session_id)?;
        let at = seen.only()?;
        let keys = Keys {
            device: self.device,
            name: self.card().name_at(at),
        };
        get::get_prepared(&keys, self.kv, self.rbp, 0, mix_buf)
    }
}

// The device key is prepared once for all records. Card, chip and key stand one by one, as C hands them over here, and as they do in the other call: both signatures stay.
pub fn find_encoded_mix(
    kv: &[u8],
    rbp: &[u8],
    device_key: &[u8],
    session_id: u64,
    mix_buf: &mut [u8],
) -> Result<usize, Refusal>
    ensures { record { status = status_of result; numbers = count_of result ∷ []; output = mix_buf.new } ≡ find_encoded_mix kv.now rbp.now device_key.now session_id mix_buf.old }
{
    if mix_buf.len() < monitor::MAX_MIX {
        return Err(Refusal::Length);
    }
    guard::guard_areas(kv, rbp, device_key.len() == 16)?;
    let device = kdf::prepare(&Tables::new(), parts::array(device_key));
    let records = Records {
        kv,
        rbp,
        device: &device,
    };
    records.find(session_id, mix_buf)
}

pub fn find_mix_by_session(
    kv: &[u8],
    rbp: &[u8],
    device_key: &[u8],
    session_id: u64,
) -> Result<MonitorMix, Refusal>
    ensures { record { status = status_of result; mix = value_or zero_mix result } ≡ find_mix_by_session kv.now rbp.now device_key.now session_id }
{
    let mut mix = [0u8; monitor::MAX_MIX];
    let count = find_encoded_mix(kv, rbp, device_key, session_id, &mut mix)?;
    codec::decode_mix(&mix[..count])
}
