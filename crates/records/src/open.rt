// Opening a record.
ghost use Rattle.std.specs.Prelude.{◌≡◌, ◌++◌, min, length, take, drop};
ghost use Rattle.buffers.specs.Bytes.{zero_fill};
ghost use Rattle.spec.specs.Record.{data_size_of, flags_of, plaintext};
ghost use Rattle.records.specs.Parts.{ReadyFor};

use crate::keys::Keys;
use crate::record::Record;
use buffers::parts;

// How many bytes of a record's data fit.
fn fitting(r: Record<'_>, room: usize) -> usize
    ensures { result ≡ min room (data_size_of r.entry.bytes.now) }
{
    room.min(r.data_size() as usize)
}

impl Keys<'_> {
    // As many bytes of a record's data as fit, to the front of a buffer, and decrypted there where the flags ask for confidentiality.
    pub fn open_front(&self, r: Record<'_>, output: &mut [u8]) -> usize
        requires { ReadyFor (flags_of r.bytes.now) self.now.device.now }
        ensures value { result ≡ min (length output.old) (data_size_of r.entry.bytes.now) }
        ensures output_after { output.new ≡ take result (plaintext self.now.device.now.key self.now.name.now r.entry.bytes.now) ++ drop result output.old }
    {
        let n = fitting(r, output.len());
        let end = n + 20;
        let flags = r.flags();
        let iv = parts::array::<8>(&r.bytes[12..20]);
        self.put_crypted(flags, iv, &r.bytes[20..end], output, 0);
        n
    }

    // A record's data, with zeros behind it.
    pub fn open_record(&self, r: Record<'_>) -> [u8; 480]
        requires { ReadyFor (flags_of r.bytes.now) self.now.device.now }
        ensures { result ≡ zero_fill 480 (plaintext self.now.device.now.key self.now.name.now r.entry.bytes.now) }
    {
        let mut value = [0u8; 480];
        self.open_front(r, &mut value);
        value
    }
}
