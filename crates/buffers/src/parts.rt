// Parts of buffers: cleared, moved, written over, and taken as arrays.
ghost use Rattle.std.specs.Prelude.{◌≡◌, ◌++◌, ◌+◌, ◌-◌, ◌≤◌, min, length, take, drop};
ghost use Rattle.buffers.specs.Bytes.{zeros, put_at};

pub fn clear(part: &mut [u8])
    ensures { part.new ≡ zeros (length part.old) }
{
    part.fill(0);
}

// Every byte w bytes on; the first w bytes stay, and the last w go.
pub fn move_up(part: &mut [u8], w: usize)
    requires { w ≤ length part.old }
    ensures { part.new ≡ take w part.old ++ take (length part.old - w) part.old }
{
    let n = part.len() - w;
    part.copy_within(0..n, w);
}

// Every byte w bytes back; the first w bytes go, and the last w stay.
pub fn move_down(part: &mut [u8], w: usize)
    requires { w ≤ length part.old }
    ensures { part.new ≡ drop w part.old ++ drop (length part.old - w) part.old }
{
    let n = part.len();
    part.copy_within(w..n, 0);
}

pub fn paste(dst: &mut [u8], at: usize, src: &[u8])
    requires { at + length src.now ≤ length dst.old }
    ensures { dst.new ≡ put_at dst.old at src.now }
{
    let end = at + src.len();
    dst[at..end].copy_from_slice(src);
}

// As many bytes as fit, to the front.
pub fn copy_fitting(src: &[u8], dst: &mut [u8]) -> usize
    ensures value { result ≡ min (length dst.old) (length src.now) }
    ensures dst_after { dst.new ≡ take result src.now ++ drop result dst.old }
{
    let n = dst.len().min(src.len());
    dst[0..n].copy_from_slice(&src[0..n]);
    n
}

// The bytes of a part, as an array of their number. No TryFrom: that answers with a Result, and does not promise that it refuses none.
pub fn array<const N: usize>(s: &[u8]) -> [u8; N]
    requires { length s.now ≡ N }
    ensures { result ≡ s.now }
{
    let mut a = [0u8; N];
    a.copy_from_slice(s);
    a
}
