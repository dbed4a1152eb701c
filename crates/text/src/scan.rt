// The first of a byte in a part of a text.
ghost use Rattle.std.specs.Prelude.{◌≡◌, ◌+◌, ◌≤◌, length};
ghost use Rattle.text.specs.Scan.{index_of, slice};

// Where the byte stands first in `s[from..to]`, or to where it does not stand there.
pub fn find(s: &[u8], from: usize, to: usize, byte: u8) -> usize
    requires { (from ≤ to) × (to ≤ length s.now) }
    ensures place { result ≡ from + index_of byte (slice from to s.now) }
    ensures result_le_to { result ≤ to }
{
    let part = &s[from..to];
    from + part.iter().position(|x| *x == byte).unwrap_or(part.len())
}
