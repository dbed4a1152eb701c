// Parts of buffers. Where a part is not there, all of the buffer is handed back or nothing is done, so that no caller has a bound to show.

// The first n elements.
pub fn front<T>(s: &[T], n: usize) -> &[T] {
    s.get(..n).unwrap_or(s)
}

// No generic form serves `&` and `&mut` alike, here and in `Bench::reg`.
pub fn front_mut(s: &mut [u8], n: usize) -> &mut [u8] {
    let end = n.min(s.len());
    &mut s[..end]
}

// n bytes from an index on.
pub fn span(s: &[u8], from: usize, n: usize) -> &[u8] {
    s.get(from..from.wrapping_add(n)).unwrap_or(s)
}

// Writes bytes from an index on, where they have room.
pub fn put(s: &mut [u8], at: usize, data: &[u8]) -> bool {
    if let Some(rest) = s.get_mut(at..) {
        if let Some(part) = rest.get_mut(..data.len()) {
            part.copy_from_slice(data);
            return true;
        }
    }
    false
}

// Inverts the bits of one byte that are set in the mask.
pub fn flip_byte(s: &mut [u8], at: usize, mask: u8) {
    if let Some(byte) = s.get_mut(at) {
        *byte ^= mask;
    }
}

// Inverts the bits that data have, from an index on.
pub fn flip(s: &mut [u8], at: usize, data: &[u8]) {
    if let Some(rest) = s.get_mut(at..) {
        for (byte, mask) in rest.iter_mut().zip(data) {
            *byte ^= *mask;
        }
    }
}
