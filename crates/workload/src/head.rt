// The head of a made script.
ghost use Rattle.std.specs.Prelude.{◌≡◌};
ghost use Rattle.workload.specs.Made.{made_head};

use nvm_model::{Head, LaneSet};

/// The sizes of each of the four lanes.
const SET: LaneSet = LaneSet {
    sq: 64,
    cq: 64,
    pages: 64,
};

/// The sizes of the lanes that aren't there.
const NONE: LaneSet = LaneSet {
    sq: 0,
    cq: 0,
    pages: 0,
};

/// The head of a number's script.
pub fn head_of(n: u64) -> Head
    ensures { result ≡ made_head n }
{
    Head {
        blocks: 65_536,
        shelf: 1024,
        lanes: 4,
        sets: [SET, SET, SET, SET, NONE, NONE, NONE, NONE],
        burst: 16,
        mix: (n % (1 << 32)) as u32,
        change: 1024,
        slice: 2048,
        small: 4096,
        pages: 128,
        patience: 256,
        migrate: Some(8),
    }
}
