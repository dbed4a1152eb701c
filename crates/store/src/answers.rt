// What the calls hand out besides their number.
#[derive(Clone, Copy, Debug, Default, PartialEq, Eq)]
pub struct Info {
    pub data_size: u32,
    pub flags: u32,
}

#[derive(Clone, Copy, Debug, Default, PartialEq, Eq)]
pub struct Iterated {
    pub name_len: usize,
    pub next_slot: usize,
}
