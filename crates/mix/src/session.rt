// A session number's eight bytes, little-endian.
ghost use Rattle.std.specs.Prelude.{◌≡◌, ◌≤◌, length};
ghost use Rattle.buffers.specs.Bytes.{le_bytes, le_at, put_at};

use buffers::parts;

pub(crate) fn put_session(session_id: u64, b: &mut [u8])
    requires { 8 ≤ length b.old }
    ensures { b.new ≡ put_at b.old 0 (le_bytes 8 session_id) }
{
    parts::paste(b, 0, &session_id.to_le_bytes());
}

pub(crate) fn session_at(b: &[u8]) -> u64
    requires { 8 ≤ length b.now }
    ensures { result ≡ le_at 8 b.now 0 }
{
    u64::from_le_bytes(parts::array(&b[..8]))
}
