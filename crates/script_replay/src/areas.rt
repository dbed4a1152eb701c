// The card and the chip of a script.
ghost use Rattle.std.specs.Prelude.{◌≡◌, ◌≤◌, length};
ghost use Rattle.script_replay.specs.Replay.{empty_areas};

const KV_SLOT: usize = 584;

const RBP_SLOT: usize = 82;

// Of 64 slots.
pub const MAX_KV: usize = 64 * KV_SLOT;

pub const MAX_RBP: usize = 64 * RBP_SLOT;

#[derive(Clone, Copy)]
pub struct AreaSizes {
    pub kv: usize,
    pub rbp: usize,
}

// How many bytes they have. The second clause follows, so that a caller can take parts of arrays without a proof.
pub fn area_sizes(slots: usize) -> AreaSizes
    requires { slots ≤ 64 }
    ensures value { result ≡ record { kv = length (empty_areas slots).kv; rbp = length (empty_areas slots).rbp } }
    ensures kv_bound { (result.kv ≤ 37376) × (result.rbp ≤ 5248) }
{
    AreaSizes {
        kv: slots * KV_SLOT,
        rbp: slots * RBP_SLOT,
    }
}
