// The CMAC of a record, computed and compared. 02, No. 3: both comparisons run over all sixteen bytes and hand back the bits in which some pair differs.
ghost use Rattle.std.specs.Prelude.{◌≡◌, length};
ghost use Rattle.cipher.specs.Device.{IsPrepared};
ghost use Rattle.buffers.specs.Compare.{diff_accumulate};
ghost use Rattle.spec.specs.Record.{metadata_of, stored_data_of, tag_of, record_cmac};
ghost use Rattle.records.specs.Parts.{cmac_over};

use crate::keys::Keys;
use crate::record::Record;
use buffers::{compare, parts};
use cipher::tables::Tables;

impl Keys<'_> {
    // The CMAC that a name's record must have: over the name, then the metadata and the data as stored, which stand side by side.
    pub(crate) fn record_cmac(&self, covered: &[u8]) -> [u8; 16]
        requires { IsPrepared self.now.device.now }
        ensures { result ≡ cmac_over self.now.device.now.key self.now.name.now covered.now }
    {
        let key = cipher::kdf::derive_authentication_key(self.device, self.name);
        cipher::cmac::tag_parts(&Tables::new(), key, self.name, covered)
    }

    // The bits in which a record's CMAC differs from the computed one: none where it verifies.
    pub fn mac_difference(&self, r: Record<'_>) -> u8
        requires { IsPrepared self.now.device.now }
        ensures { result ≡ diff_accumulate (record_cmac self.now.device.now.key self.now.name.now (metadata_of r.entry.bytes.now) (stored_data_of r.entry.bytes.now)) (tag_of r.entry.bytes.now) }
    {
        let end = r.bytes.len() - 16;
        let computed = self.record_cmac(&r.bytes[..end]);
        let stored = r.tag();
        compare::tag_difference(computed, stored)
    }
}

// The bits in which a record's CMAC differs from the copy that was kept elsewhere. The copy is a slice, of which this clause of `copy_difference` says sixteen
// bytes: an array would ask more of callers.
pub fn copy_difference(copy: &[u8], r: Record<'_>) -> u8
    requires { length copy.now ≡ 16 }
    ensures { result ≡ diff_accumulate copy.now (tag_of r.entry.bytes.now) }
{
    let kept = parts::array::<16>(copy);
    let stored = r.tag();
    compare::tag_difference(kept, stored)
}
