// Standard output.
pub use trials::print::{number, text};

// Bytes as the files write them.
pub fn bytes(s: &[u8]) {
    if s.is_empty() {
        return text(b"-");
    }
    let mut digits = [0u8; 2048];
    if let Some(n) = text::hex::encode_hex(s, &mut digits) {
        text(&digits[..n]);
    }
}
