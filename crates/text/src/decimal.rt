// Numbers in decimal: read with any leading zeros, written with none.
ghost use Rattle.std.specs.Prelude.{◌≡◌, true, ◌++◌, ◌≤◌, IfSome, length, drop};
ghost use Rattle.text.specs.Decimal.{read, places as Decimal·places, digits, decimal_text};
ghost use Rattle.text.specs.Written.{answer, left};

// The number that one or more digits stand for, leading zeros allowed. Refused: no digits, another byte, and a number over most, at once,
// since what is over most after some digits stays over it.
pub fn parse_decimal(text: &[u8], most: u64) -> Option<u64>
    ensures value { result ≡ read text.now most }
    ensures value_le_most { IfSome result (λ value. value ≤ most) }
{
    if text.is_empty() {
        return None;
    }
    let mut value: u64 = 0;
    for c in text {
        let digit = char::from(*c).to_digit(10)?;
        value = value.checked_mul(10)?.checked_add(u64::from(digit))?;
        if most < value {
            return None;
        }
    }
    Some(value)
}

// How many digits a number has.
fn places(n: u64) -> usize
    ensures { result ≡ Decimal·places n }
{
    n.checked_ilog10().unwrap_or(0) as usize + 1
}

// The last k digits of a number, from the last to the first. By index: the clauses of `iter_mut().rev()` do not say what a loop wrote.
fn put_decimal(n: u64, k: usize, out: &mut [u8])
    requires { k ≤ length out.old }
    ensures { out.new ≡ digits k n ++ drop k out.old }
{
    let mut rest = n;
    for i in (0..k).rev() {
        out[i] = b'0' + (rest % 10) as u8;
        rest /= 10;
    }
}

// A number in its fewest digits, to the front of out; the rest stays as it was. Refused where it does not fit.
pub fn format_decimal(value: u64, out: &mut [u8]) -> Option<usize>
    ensures value { result ≡ answer true (decimal_text value) out.old }
    ensures out_after { out.new ≡ left true (decimal_text value) out.old }
    ensures count_in_bounds { IfSome result (λ count. count ≤ length out.new) }
{
    let k = places(value);
    if out.len() < k {
        return None;
    }
    put_decimal(value, k, out);
    Some(k)
}
