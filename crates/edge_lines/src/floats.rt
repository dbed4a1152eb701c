// 32-bit floats as a line writes them: four bytes of bits for each, little-endian.

// How many bytes n floats have.
pub fn size(n: usize) -> usize {
    n % 1024 * 4
}

// No float may be made of a NaN's bits. Any NaN stands for it, since a call sees no more of it than that it is one.
fn float_of(bits: u32) -> f32 {
    if bits % 0x80000000 <= 0x7f800000 {
        return f32::from_bits(bits);
    }
    0.0 / 0.0
}

// A NaN, which no mix has, is told by bits of its own.
fn bits_of(x: f32) -> u32 {
    if x == x {
        return f32::to_bits(x);
    }
    0x7fc00000
}

// As many floats as there are bytes and room for.
pub fn read_floats(s: &[u8], out: &mut [f32]) {
    let (floats, _) = s.as_chunks::<4>();
    for (x, bytes) in out.iter_mut().zip(floats) {
        *x = float_of(u32::from_le_bytes(*bytes));
    }
}

// Writes the bytes of floats from an index on, where they have room.
pub fn put_floats(out: &mut [u8], at: usize, s: &[f32]) {
    if let Some(rest) = out.get_mut(at..) {
        let (places, _) = rest.as_chunks_mut::<4>();
        for (place, x) in places.iter_mut().zip(s) {
            *place = bits_of(*x).to_le_bytes();
        }
    }
}
