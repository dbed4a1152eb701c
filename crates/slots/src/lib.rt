// The slot areas of the card and of the chip, as the flat buffers that are lent. One code for both: each function is told which.
#![tactic(auto)]

pub mod areas;
pub mod names;
pub mod slot;

ghost use Rattle.std.specs.Prelude.{◌≡◌};
ghost use Rattle.slots.specs.Kind.{format_of};

// 01's "card" and "chip"
#[derive(Clone, Copy, PartialEq, Eq, Debug)]
pub enum AreaKind {
    Kv,
    Rbp,
}

impl AreaKind {
    pub(crate) fn slot_size(self) -> usize
        ensures { result ≡ (format_of self).slot_size }
    {
        match self {
            AreaKind::Kv => 584,
            AreaKind::Rbp => 82,
        }
    }

    pub(crate) fn name_offset(self) -> usize
        ensures { result ≡ (format_of self).name_offset }
    {
        match self {
            AreaKind::Kv => 4,
            AreaKind::Rbp => 2,
        }
    }

    pub(crate) fn payload_offset(self) -> usize
        ensures { result ≡ (format_of self).payload_offset }
    {
        match self {
            AreaKind::Kv => 68,
            AreaKind::Rbp => 66,
        }
    }
}
