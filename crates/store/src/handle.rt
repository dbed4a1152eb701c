// A handle's 88 bytes, for callers that keep it as bytes. Functions and not From: an impl may stand only in `spec`, whose
// type the handle is, and that crate has no function (README).
ghost use Rattle.std.specs.Prelude.{◌≡◌};
ghost use Rattle.spec.specs.Incremental.{handle_bytes, handle_of};

use buffers::{numbers, parts};
use spec::incremental::IncSetHandle;

pub fn encode_handle(handle: IncSetHandle) -> [u8; 88]
    ensures { result ≡ handle_bytes handle }
{
    let mut b = [0u8; 88];
    parts::paste(&mut b, 0, &handle.name);
    numbers::put_le_at(handle.name_len, &mut b, 64, 4);
    numbers::put_le_at(handle.flags, &mut b, 68, 4);
    parts::paste(&mut b, 72, &handle.iv);
    numbers::put_le_at(handle.final_data_size, &mut b, 80, 4);
    numbers::put_le_at(handle.offset, &mut b, 84, 4);
    b
}

pub fn decode_handle(b: [u8; 88]) -> IncSetHandle
    ensures { result ≡ handle_of b }
{
    IncSetHandle {
        name: parts::array::<64>(&b[0..64]),
        name_len: numbers::le_at(&b, 64, 4),
        flags: numbers::le_at(&b, 68, 4),
        iv: parts::array::<8>(&b[72..80]),
        final_data_size: numbers::le_at(&b, 80, 4),
        offset: numbers::le_at(&b, 84, 4),
    }
}
