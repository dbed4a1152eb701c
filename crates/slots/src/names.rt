// Tests on names.
ghost use Rattle.std.specs.Prelude.{◌≡◌};
ghost use Rattle.buffers.specs.Bytes.{every};
ghost use Rattle.spec.specs.Name.{valid_name_byte, valid_name, valid_prefix};

fn valid_name_byte(b: u8) -> bool
    ensures { result ≡ valid_name_byte b }
{
    0x20 <= b && b != 0x7f
}

// An and over all bytes with one test after it: such a loop is vectorised, and `all`, which stops at the first bad byte, is not.
fn valid_name_bytes(s: &[u8]) -> bool
    ensures { result ≡ every valid_name_byte s.now }
{
    s.iter()
        .fold(true, |valid, byte| valid & valid_name_byte(*byte))
}

// 01: "good name"
pub fn valid_name(name: &[u8]) -> bool
    ensures { result ≡ valid_name name.now }
{
    !name.is_empty() && valid_prefix(name)
}

// 01: the prefix of a "walk"
pub fn valid_prefix(p: &[u8]) -> bool
    ensures { result ≡ valid_prefix p.now }
{
    p.len() <= 64 && valid_name_bytes(p)
}
