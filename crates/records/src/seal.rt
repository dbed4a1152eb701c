// Making a record.
ghost use Rattle.std.specs.Prelude.{◌≡◌, ◌++◌, ◌+◌, ◌≤◌, length, drop};
ghost use Rattle.buffers.specs.Bytes.{zero_fill, put_at};
ghost use Rattle.spec.specs.Record.{metadata, sealed_iv, sealed_data, seal_record};
ghost use Rattle.records.specs.Parts.{ReadyFor, tag_over};

use crate::keys::Keys;
use crate::{flags, record};
use buffers::{numbers, parts};
use cipher::tables::Tables;

fn put_metadata(data_size: u32, flags: u32, iv: [u8; 8], dst: &mut [u8])
    requires { 20 ≤ length dst.old }
    ensures { dst.new ≡ metadata data_size flags iv ++ drop 20 dst.old }
{
    numbers::put_le_at(20, dst, 0, 2);
    numbers::put_le_at(record::REVISION, dst, 2, 2);
    numbers::put_le_at(data_size, dst, 4, 4);
    numbers::put_le_at(flags, dst, 8, 4);
    parts::paste(dst, 12, &iv);
}

// Without confidentiality the IV is zero, whatever was lent.
fn sealed_iv(flags: u32, iv: [u8; 8]) -> [u8; 8]
    ensures { result ≡ sealed_iv flags iv }
{
    if flags::require_confidentiality(flags) {
        iv
    } else {
        [0; 8]
    }
}

impl Keys<'_> {
    // Data copied, and encrypted or decrypted where the flags ask for confidentiality.
    fn copy_crypted(&self, flags: u32, iv: [u8; 8], src: &[u8], dst: &mut [u8])
        requires src_len { length src.now ≡ length dst.old }
        requires ready_for { ReadyFor flags self.now.device.now }
        ensures { dst.new ≡ sealed_data self.now.device.now.key self.now.name.now flags iv src.now }
    {
        dst.copy_from_slice(src);
        if flags::require_confidentiality(flags) {
            let key = cipher::kdf::derive_encryption_key(self.device, self.name);
            cipher::ctr::crypt(&Tables::new(), key, iv, dst);
        }
    }

    pub(crate) fn put_crypted(&self, flags: u32, iv: [u8; 8], src: &[u8], dst: &mut [u8], at: usize)
        requires src_in_bounds { at + length src.now ≤ length dst.old }
        requires ready_for { ReadyFor flags self.now.device.now }
        ensures { dst.new ≡ put_at dst.old at (sealed_data self.now.device.now.key self.now.name.now flags iv src.now) }
    {
        let end = at + src.len();
        self.copy_crypted(flags, iv, src, &mut dst[at..end]);
    }

    // Without integrity the CMAC is zero.
    fn sealed_tag(&self, flags: u32, covered: &[u8]) -> [u8; 16]
        requires { ReadyFor flags self.now.device.now }
        ensures { result ≡ tag_over self.now.device.now.key self.now.name.now flags covered.now }
    {
        if flags::require_integrity(flags) {
            self.record_cmac(covered)
        } else {
            [0; 16]
        }
    }

    // A record at the front of a buffer.
    fn seal_into(&self, flags: u32, iv: [u8; 8], value: &[u8], record_buf: &mut [u8])
        requires value_in_bounds { length value.now + 36 ≤ length record_buf.old }
        requires record_buf_len_bound { length record_buf.old ≤ 516 }
        requires ready_for { ReadyFor flags self.now.device.now }
        ensures { record_buf.new ≡ seal_record self.now.device.now.key self.now.name.now flags iv value.now ++ drop (length value.now + 36) record_buf.old }
    {
        let n = value.len();
        let covered = n + 20;
        put_metadata(n as u32, flags, sealed_iv(flags, iv), record_buf);
        self.put_crypted(flags, iv, value, record_buf, 20);
        let tag = self.sealed_tag(flags, &record_buf[..covered]);
        parts::paste(record_buf, covered, &tag);
    }

    // 01: the "working record", which starts as all zeros.
    pub fn seal_record(&self, flags: u32, iv: [u8; 8], value: &[u8]) -> [u8; 516]
        requires value_len_bound { length value.now ≤ 480 }
        requires ready_for { ReadyFor flags self.now.device.now }
        ensures { result ≡ zero_fill 516 (seal_record self.now.device.now.key self.now.name.now flags iv value.now) }
    {
        let mut record_buf = [0u8; 516];
        self.seal_into(flags, iv, value, &mut record_buf);
        record_buf
    }
}
