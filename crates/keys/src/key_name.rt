// The name that a key is kept under.
ghost use Rattle.std.specs.Prelude.{◌≡◌};
ghost use Rattle.spec.specs.Name.{hex_digits, key_name};

const HEX_DIGITS: [u8; 16] = *b"0123456789abcdef";

fn key_digits(key_id: u32) -> [u8; 16]
    ensures { result ≡ hex_digits 16 key_id }
{
    let mut digits = [0u8; 16];
    let mut rest = key_id;
    // Tried: `for digit in digits.iter_mut().rev()`. Its clauses do not say what the loop wrote.
    for i in (0..16).rev() {
        digits[i] = HEX_DIGITS[(rest % 16) as usize];
        rest /= 16;
    }
    digits
}

// The name, in the lent digits: the empty one where there is no such key, since a call refuses it where it refuses a bad one.
pub(crate) fn key_name(key_id: u32, digits: &mut [u8; 16]) -> &[u8]
    ensures { result.now ≡ key_name key_id }
{
    *digits = key_digits(key_id);
    if key_id < 1 || 0xfffeffff < key_id {
        &digits[..0]
    } else {
        &digits[..]
    }
}
