// What the records of one name are made and opened under. That the device key is prepared where a record's flags ask for keys (`ReadyFor`) stays a clause:
// the flags are known only when the record is read, and a record without keys is opened under a bare key.
use cipher::kdf::DeviceKey;

#[derive(Clone, Copy)]
pub struct Keys<'a> {
    pub device: &'a DeviceKey,
    pub name: &'a [u8],
}
