// The flags of a record: a number and no type of their own, since any number may be handed in and the definitions are of numbers.
ghost use Rattle.std.specs.Prelude.{◌≡◌};
ghost use Rattle.spec.specs.Record.{write_once, require_confidentiality, require_integrity, require_replay_protection, valid_flags};
ghost use Rattle.records.specs.Parts.{needs_keys};

pub fn write_once(flags: u32) -> bool
    ensures { result ≡ write_once flags }
{
    flags % 2 == 1
}

pub fn require_confidentiality(flags: u32) -> bool
    ensures { result ≡ require_confidentiality flags }
{
    flags / 2 % 2 == 1
}

pub fn require_integrity(flags: u32) -> bool
    ensures { result ≡ require_integrity flags }
{
    flags / 4 % 2 == 1
}

// Keys are derived for a record with these flags.
pub fn needs_keys(flags: u32) -> bool
    ensures { result ≡ needs_keys flags }
{
    require_confidentiality(flags) || require_integrity(flags)
}

pub fn require_replay_protection(flags: u32) -> bool
    ensures { result ≡ require_replay_protection flags }
{
    flags / 8 % 2 == 1
}

// The whole number is compared: a bit above the four is refused.
pub fn valid_flags(flags: u32) -> bool
    ensures { result ≡ valid_flags flags }
{
    flags < 16 && (!require_replay_protection(flags) || require_integrity(flags))
}
