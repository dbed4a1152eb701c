// Standard output.
const STDOUT: i32 = 1;

// No Display: what is printed are a line's bytes, whatever they are.
pub fn text(s: &[u8]) {
    io::write_all(STDOUT, s);
}

pub fn number(n: u64) {
    io::print_decimal(STDOUT, n);
}
