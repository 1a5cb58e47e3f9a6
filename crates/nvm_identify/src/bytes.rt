// Parts and little-endian numbers at a place of bytes.

ghost use Rattle.std.specs.Prelude.{◌≡◌, ◌+◌, ◌≤◌, ◌<◌, ◌^◌, length};
ghost use Rattle.std.specs.Int.{w16, w32, w64, to_le_bytes};
ghost use Rattle.nvm_identify.specs.Place.{number_at, part_at, written, zeroes};

use byteorder::{ByteOrder, LittleEndian};

/// The bytes aren't the 4,096 of Identify data: how many there are.
#[derive(Clone, Copy, Debug, PartialEq, Eq)]
pub struct Length {
    pub got: usize,
}

/// The number in the 2 bytes from that place.
pub fn u16_at(b: &[u8], at: usize) -> u16
    requires { at + 2 ≤ length b.now }
    ensures { result ≡ number_at w16 at b.now }
{
    LittleEndian::read_u16(&b[at..at + 2])
}

/// The number in the 4 bytes from that place.
pub fn u32_at(b: &[u8], at: usize) -> u32
    requires { at + 4 ≤ length b.now }
    ensures { result ≡ number_at w32 at b.now }
{
    LittleEndian::read_u32(&b[at..at + 4])
}

/// The number in the 8 bytes from that place.
pub fn u64_at(b: &[u8], at: usize) -> u64
    requires { at + 8 ≤ length b.now }
    ensures { result ≡ number_at w64 at b.now }
{
    LittleEndian::read_u64(&b[at..at + 8])
}

/// The `N` bytes from that place.
pub fn array_at<const N: usize>(b: &[u8], at: usize) -> [u8; N]
    requires { at + N ≤ length b.now }
    ensures { result ≡ part_at N at b.now }
{
    let mut part = [0; N];
    part.copy_from_slice(&b[at..at + N]);
    part
}

/// All the bytes become zeroes.
#[tactic(auto, unfolding(crate::specs::Place::zeroes))]
pub fn clear(out: &mut [u8; 4096])
    ensures { out.new ≡ zeroes 4096 }
{
    *out = [0; 4096];
}

/// Writes the bytes of `part` from that place on. The others stay.
pub fn put(out: &mut [u8], at: usize, part: &[u8])
    requires { at + length part.now ≤ length out.old }
    ensures { out.new ≡ written out.old at part.now }
{
    out[at..at + part.len()].copy_from_slice(part);
}

/// Writes the number's 2 bytes from that place on. The others stay.
pub fn put_u16(out: &mut [u8], at: usize, number: u16)
    requires { at + 2 ≤ length out.old }
    ensures bytes { out.new ≡ written out.old at (to_le_bytes w16 number) }
    ensures fits { number < 2 ^ 16 }
{
    LittleEndian::write_u16(&mut out[at..at + 2], number);
}

/// Writes the number's 4 bytes from that place on. The others stay.
pub fn put_u32(out: &mut [u8], at: usize, number: u32)
    requires { at + 4 ≤ length out.old }
    ensures bytes { out.new ≡ written out.old at (to_le_bytes w32 number) }
    ensures fits { number < 2 ^ 32 }
{
    LittleEndian::write_u32(&mut out[at..at + 4], number);
}

/// Writes the number's 8 bytes from that place on. The others stay.
pub fn put_u64(out: &mut [u8], at: usize, number: u64)
    requires { at + 8 ≤ length out.old }
    ensures bytes { out.new ≡ written out.old at (to_le_bytes w64 number) }
    ensures fits { number < 2 ^ 64 }
{
    LittleEndian::write_u64(&mut out[at..at + 8], number);
}
