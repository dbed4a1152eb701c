// A player's mix, as a value.

// 02: "A send is muted, or has a level, or has a level and a pan".
#[derive(Clone, Copy)]
pub enum AuxSend {
    Muted,
    Level(f32),
    LevelPan(f32, f32),
}

// The first `count` sends belong to the mix. A mix that is read has `Muted` in the others; where one is given, they are not looked at.
// An array with a count, since there is no heap, and a mix is held by value.
#[derive(Clone, Copy)]
pub struct MonitorMix {
    pub session_id: u64,
    pub count: u8,
    pub sends: [AuxSend; 16],
}

pub const MAX_SENDS: usize = 16;

pub const MIX_HEADER: usize = 9;

pub const SEND_SIZE: usize = 9;

// A header and sixteen sends.
pub const MAX_MIX: usize = 153;
