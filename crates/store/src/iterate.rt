// The iterator: the next name with a prefix, from a slot on.
ghost use Rattle.std.specs.Prelude.{◌≡◌, [], ◌∷◌};
ghost use Rattle.spec.specs.Calls as Calls;
ghost use Rattle.store.specs.Answers.{status_of, value_or, no_name};

use crate::answers::Iterated;
use crate::guard;
use crate::status::Refusal;
use buffers::parts;
use slots::areas::Area;
use slots::{AreaKind, names};

pub fn iterator_next(
    kv: &[u8],
    rbp: &[u8],
    prefix: &[u8],
    start_slot: usize,
    name_buf: &mut [u8],
) -> Result<Iterated, Refusal>
    ensures { record { status = status_of result; numbers = (value_or no_name result).name_len ∷ (value_or no_name result).next_slot ∷ []; output = name_buf.new } ≡ (Calls.store_iterator_next kv.now rbp.now prefix.now start_slot name_buf.old).answer }
{
    guard::early_status(kv, rbp, 64 <= name_buf.len(), names::valid_prefix(prefix))?;
    let card = Area {
        kind: AreaKind::Kv,
        bytes: kv,
    };
    let at = card.next_match(prefix, start_slot);
    if card.slot_count() <= at {
        return Err(Refusal::NotFound);
    }
    let name = card.name_at(at);
    parts::paste(name_buf, 0, name);
    Ok(Iterated {
        name_len: name.len(),
        next_slot: at + 1,
    })
}
