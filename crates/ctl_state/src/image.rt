ghost use Rattle.std.specs.Prelude.{◌≡◌, ◌+◌, ◌*◌, ◌≤◌, ◌++◌, drop, length, take};
ghost use Rattle.ctl_state.specs.Bounds.{pair_of};
ghost use Rattle.ctl_state.specs.Image.{IsImage, IsPair, header, image_bytes, pair_bytes};

use byteorder::{ByteOrder, LittleEndian};
use nvm_ring::RingState;

/// A controller's part of a queue pair: the places of its two rings, and the phase tag of the next completion.
#[derive(Clone, Copy, Debug, PartialEq, Eq)]
pub struct PairState {
    pub sq: RingState,
    pub cq: RingState,
    pub phase: bool,
}

/// The state of a controller of up to 8 queue pairs: those of lanes 1 to `used`, and behind them pairs of zeroes.
#[derive(Clone, Copy, Debug, PartialEq, Eq)]
pub struct Image {
    pub pairs: [PairState; 8],
    pub used: u8,
}

impl PairState {
    /// A pair of zeroes, which stands for none.
    pub const NONE: PairState = PairState {
        sq: RingState {
            size: 0,
            head: 0,
            tail: 0,
        },
        cq: RingState {
            size: 0,
            head: 0,
            tail: 0,
        },
        phase: false,
    };

    /// The 32 bytes of the pair of a lane, whose rings are the first two pages of the lane's window.
    fn to_bytes(self, lane: u8) -> [u8; 32]
        requires { IsPair self }
        ensures { result ≡ pair_bytes lane self }
    {
        let window = u64::from(lane) * 0x100_0000;
        let mut out = [0; 32];
        LittleEndian::write_u64(&mut out[0..8], window);
        LittleEndian::write_u64(&mut out[8..16], window + 4_096);
        LittleEndian::write_u16(&mut out[16..18], self.sq.size - 1);
        LittleEndian::write_u16(&mut out[18..20], self.sq.head);
        LittleEndian::write_u16(&mut out[20..22], self.sq.tail);
        LittleEndian::write_u16(&mut out[22..24], self.cq.size - 1);
        LittleEndian::write_u16(&mut out[24..26], self.cq.head);
        LittleEndian::write_u16(&mut out[26..28], self.cq.tail);
        out[28] = u8::from(self.phase);
        out
    }

    /// The pair whose bytes are those, which are 32.
    pub(crate) fn from_bytes(b: &[u8]) -> PairState
        requires { length b.now ≡ 32 }
        ensures { result ≡ pair_of b.now }
    {
        PairState {
            sq: RingState {
                size: u16::from(b[16]) + 1,
                head: LittleEndian::read_u16(&b[18..20]),
                tail: LittleEndian::read_u16(&b[20..22]),
            },
            cq: RingState {
                size: u16::from(b[22]) + 1,
                head: LittleEndian::read_u16(&b[24..26]),
                tail: LittleEndian::read_u16(&b[26..28]),
            },
            phase: b[28] == 1,
        }
    }
}

impl Image {
    /// Writes the image of this state into the first bytes of `out`, and answers how many they are: 8, and 32 for each
    /// pair. The others stay.
    pub fn encode(&self, out: &mut [u8; 264]) -> u32
        requires { IsImage self.now.used self.now }
        ensures count { result ≡ 8 + 32 * self.now.used }
        ensures bytes { out.new ≡ image_bytes self.now ++ drop (8 + 32 * self.now.used) out.old }
    {
        let used = usize::from(self.used);
        let size = 8 + 32 * used;
        out[0..8].copy_from_slice(&header(self.used));
        'pairs: for place in 0..used {
            let bytes = self.pairs[place].to_bytes(place as u8 + 1);
            put_pair(out, 8 + 32 * place, &bytes);
        }
        size as u32
    }
}

/// The first 8 bytes of the image of so many pairs: version 1, their number, and the length of the image.
pub(crate) fn header(used: u8) -> [u8; 8]
    ensures { result ≡ header used }
{
    let mut out = [0; 8];
    LittleEndian::write_u16(&mut out[0..2], 1);
    LittleEndian::write_u16(&mut out[2..4], u16::from(used));
    LittleEndian::write_u32(&mut out[4..8], 8 + 32 * u32::from(used));
    out
}

/// Writes the bytes of a pair from that byte on. The others stay.
fn put_pair(out: &mut [u8; 264], at: usize, bytes: &[u8; 32])
    requires { at + 32 ≤ 264 }
    ensures { out.new ≡ take at out.old ++ bytes.now ++ drop (at + 32) out.old }
{
    out[at..at + 32].copy_from_slice(bytes);
}
