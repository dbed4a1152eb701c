// Reset: both areas are cleared, whatever they hold.
ghost use Rattle.std.specs.Prelude.{◌≡◌, []};
ghost use Rattle.spec.specs.Calls as Calls;
ghost use Rattle.store.specs.Answers.{status_of};

use crate::status::Refusal;
use buffers::parts;
use slots::{AreaKind, areas};

#[tactic(auto, unfolding(spec::specs::Status::refuse_if, spec::specs::Status::on_ok, spec::specs::Calls::store_reset))]
pub fn reset(kv: &mut [u8], rbp: &mut [u8]) -> Result<(), Refusal>
    ensures { record { answer = record { status = status_of result; numbers = []; output = [] }; after = record { kv = kv.new; rbp = rbp.new } } ≡ Calls.store_reset kv.old rbp.old }
{
    if !areas::area_sized(AreaKind::Kv, kv) || !areas::area_sized(AreaKind::Rbp, rbp) {
        return Err(Refusal::Length);
    }
    parts::clear(kv);
    parts::clear(rbp);
    Ok(())
}
