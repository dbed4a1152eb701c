// The running state of a set that arrives in chunks. Whoever holds it may change any of it, so no call relies on what another left there.
#[derive(Clone, Copy)]
pub struct IncSetHandle {
    // Zero behind the name. An array with its length beside it: C lays the handle out as these 88 bytes, and there is no heap.
    pub name: [u8; 64],
    pub name_len: u32,
    pub flags: u32,
    pub iv: [u8; 8],
    // How many bytes the record's data will have.
    pub final_data_size: u32,
    // How many of them are held.
    pub offset: u32,
}
