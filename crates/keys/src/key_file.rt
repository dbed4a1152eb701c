// A key file's attributes and what parsing gives.
#[derive(Clone, Copy, Default)]
pub struct KeyAttributes {
    pub lifetime: u32,
    pub key_type: u32,
    pub usage: u32,
    pub alg: u32,
    pub enrollment_alg: u32,
}

#[derive(Clone, Copy, Default)]
pub struct KeyFile {
    pub attributes: KeyAttributes,
    pub material_len: u32,
}

// The eight bytes that a key file begins with; the reader compares them and the writer writes them.
pub const KEY_FILE_MARK: [u8; 8] = *b"PSA\0KEY\0";

// The only version that is written or accepted.
pub const KEY_FILE_VERSION: u32 = 0;

pub const KEY_FILE_HEADER: usize = 36;

pub const MAX_KEY_MATERIAL: usize = 444;

// What a record can hold, and what a key buffer must be able to.
pub const MAX_KEY_FILE: usize = 480;
