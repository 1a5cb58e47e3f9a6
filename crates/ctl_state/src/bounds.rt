// Which byte an image may have at a place, by those before it.
ghost use Rattle.std.specs.Prelude.{◌≡◌, ◌<◌, ◌≤◌, ◌↔◌, IsTrue, MatchOption, length, take};
ghost use Rattle.ctl_state.specs.Bounds.{IsWithin, bounds_after, pair_bounds};
ghost use Rattle.ctl_state.specs.Parts.{Begins, IsFirstBad, image_size};

use crate::image::header;

/// The least byte and the greatest that may stand at a place.
#[derive(Clone, Copy)]
pub(crate) struct Bounds {
    low: u8,
    high: u8,
}

/// The first byte with which no image of so many pairs goes on; `None` where an image begins so. With those before `from`
/// one does.
pub(crate) fn first_bad(lanes: u8, bytes: &[u8], from: usize) -> Option<usize>
    requires size { (lanes ≤ 8) × (length bytes.now ≤ image_size lanes) }
    requires from { from ≤ length bytes.now }
    requires begun { Begins lanes (take from bytes.now) }
    ensures { MatchOption result (Begins lanes bytes.now) (λ place. IsFirstBad lanes bytes.now place) }
{
    for place in from..bytes.len() {
        if !bounds_after(lanes, &bytes[..place]).contains(bytes[place]) {
            return Some(place);
        }
    }
    None
}

/// What may stand behind the first bytes of the image of so many pairs.
fn bounds_after(lanes: u8, front: &[u8]) -> Bounds
    requires { (lanes ≤ 8) × (length front.now < image_size lanes) }
    ensures { result ≡ bounds_after lanes front.now }
{
    let place = front.len();
    if place < 8 {
        return Bounds::only(header(lanes)[place]);
    }
    let pair = (place - 8) / 32;
    pair_bounds(pair as u8 + 1, &front[32 * pair + 8..])
}

/// What may stand behind the first bytes of a lane's pair: a byte of its rings' addresses, a size, minus 1, from 1 to 63 or
/// to 255, a head or a tail below the size, the phase tag, or zero.
fn pair_bounds(lane: u8, front: &[u8]) -> Bounds
    requires { length front.now < 32 }
    ensures { result ≡ pair_bounds lane front.now }
{
    let window = u64::from(lane) * 0x100_0000;
    let place = front.len();
    match place {
        0..=7 => Bounds::only(window.to_le_bytes()[place]),
        8..=15 => Bounds::only((window + 4_096).to_le_bytes()[place - 8]),
        16 => Bounds { low: 1, high: 63 },
        18 | 20 => Bounds {
            low: 0,
            high: front[16],
        },
        22 => Bounds { low: 1, high: 255 },
        24 | 26 => Bounds {
            low: 0,
            high: front[22],
        },
        28 => Bounds { low: 0, high: 1 },
        _ => Bounds::only(0),
    }
}

impl Bounds {
    /// One byte alone.
    fn only(byte: u8) -> Bounds
        ensures { result ≡ record { low = byte; high = byte } }
    {
        Bounds {
            low: byte,
            high: byte,
        }
    }

    /// Whether a byte may stand there.
    fn contains(self, byte: u8) -> bool
        ensures { IsTrue result ↔ IsWithin self byte }
    {
        self.low <= byte && byte <= self.high
    }
}
