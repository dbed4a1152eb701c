// The tests that come first in every call but reset.
ghost use Rattle.std.specs.Prelude.{◌≡◌, not, [], ◌∷◌};
ghost use Rattle.spec.specs.Status.{◌when◌, first_of};
ghost use Rattle.store.specs.Answers.{status_of};
ghost use Rattle.store.specs.Parts.{area_tests, early};

use crate::status::Refusal;
use slots::{AreaKind, areas};

// Lengths (1) and damage (2); `lengths` says whether the call's other lengths are right.
#[tactic(auto, unfolding(spec::specs::Status::refuse_if))]
pub fn guard_areas(kv: &[u8], rbp: &[u8], lengths: bool) -> Result<(), Refusal>
    ensures { status_of result ≡ first_of (area_tests kv.now rbp.now lengths) }
{
    if !areas::area_sized(AreaKind::Kv, kv) || !areas::area_sized(AreaKind::Rbp, rbp) || !lengths {
        return Err(Refusal::Length);
    }
    if !areas::area_intact(AreaKind::Kv, kv) || !areas::area_intact(AreaKind::Rbp, rbp) {
        return Err(Refusal::Corrupt);
    }
    Ok(())
}

// The same, then 3; `named` says whether the call's name or prefix is good.
#[tactic(auto, unfolding(spec::specs::Status::refuse_if))]
pub fn early_status(kv: &[u8], rbp: &[u8], lengths: bool, named: bool) -> Result<(), Refusal>
    ensures { status_of result ≡ first_of (early kv.now rbp.now ((1 when not lengths) ∷ []) ((3 when not named) ∷ [])) }
{
    guard_areas(kv, rbp, lengths)?;
    if !named {
        return Err(Refusal::InvalidName);
    }
    Ok(())
}
