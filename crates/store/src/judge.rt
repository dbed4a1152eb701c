// What a call has decided before it writes or reads.
ghost use Rattle.std.specs.Prelude.{◌≡◌, length, option_copied};
ghost use Rattle.std.specs.Option.{ForSome};
ghost use Rattle.spec.specs.Area.{kv_format, rbp_format};
ghost use Rattle.spec.specs.Calls.{binding_of};
ghost use Rattle.spec.specs.Demand2.{Undamaged};
ghost use Rattle.spec.specs.Status.{first_of};
ghost use Rattle.slots.specs.Found.{found_in};
ghost use Rattle.store.specs.Answers.{code, status_of};
ghost use Rattle.store.specs.Parts.{nowhere, binding, judgement, downgrade_tests};

use crate::status::Refusal;
use buffers::parts;
use records::flags as flag;
use slots::AreaKind;
use slots::areas::{Area, Found};

// What a name has on the card and in the chip.
#[derive(Clone, Copy)]
pub struct Held<'a> {
    pub stored: Option<&'a [u8]>,
    pub tag: Option<[u8; 16]>,
}

// The same, and where it stands: the name's slots, or those that it would take. No struct of the two places: `write_record` and `erase_record` take them one by
// one (DECISIONS 53), each for its own area, and their clauses name each, as those of `Judged` do.
#[derive(Clone, Copy)]
pub(crate) struct Looked<'a> {
    pub held: Held<'a>,
    pub found: Found,
    pub entry: Found,
}

// The chip's entries have sixteen bytes.
fn owned_tag(tag: Option<&[u8]>) -> Option<[u8; 16]>
    requires { ForSome tag (λ t. length t.now ≡ 16) }
    ensures { result ≡ option_copied tag.entry }
{
    tag.map(parts::array::<16>)
}

// No struct of both areas: the calls take them one by one, as C hands them over, and only this and a set's `verdict` read both.
pub(crate) fn look_up<'a>(kv: &'a [u8], rbp: &'a [u8], name: &[u8]) -> Looked<'a>
    requires { Undamaged kv.now rbp.now }
    ensures held { binding result.held ≡ binding_of kv.now rbp.now name.now }
    ensures found { result.found ≡ found_in kv_format kv.now name.now }
    ensures entry { result.entry ≡ found_in rbp_format rbp.now name.now }
{
    let card = Area {
        kind: AreaKind::Kv,
        bytes: kv,
    };
    let chip = Area {
        kind: AreaKind::Rbp,
        bytes: rbp,
    };
    let found = card.find(name);
    let entry = chip.find(name);
    let held = Held {
        stored: card.payload(found),
        tag: owned_tag(chip.payload(entry)),
    };
    Looked { held, found, entry }
}

// A call's verdict with what it gives, and where the name's slots on card and chip are, once the tests before the look-up have passed. The slots are promised
// of a name that is refused after it was looked up too, so that they stand beside the verdict.
#[derive(Clone, Copy)]
pub struct Judged<T> {
    pub verdict: Result<T, Refusal>,
    pub found: Found,
    pub entry: Found,
}

// A refusal before the name was looked up.
pub(crate) fn refused<T>(refusal: Refusal) -> Judged<T>
    ensures verdict { result.verdict ≡ Err refusal }
    ensures judged { judgement result ≡ record { status = code refusal; found = nowhere; entry = nowhere } }
{
    let nowhere = Found { at: 0, held: false };
    Judged {
        verdict: Err(refusal),
        found: nowhere,
        entry: nowhere,
    }
}

// 12 where the flags lack replay protection and the chip holds the name.
#[tactic(auto, unfolding(spec::specs::Status::refuse_if))]
pub(crate) fn downgrade_status(flags: u32, in_chip: bool) -> Result<(), Refusal>
    ensures { status_of result ≡ first_of (downgrade_tests flags in_chip) }
{
    if !flag::require_replay_protection(flags) && in_chip {
        return Err(Refusal::Rollback);
    }
    Ok(())
}
