// Little-endian numbers at a place of bytes.

ghost use Rattle.std.specs.Prelude.{◌≡◌, ◌+◌, ◌≤◌, ◌++◌, length, take, drop};
ghost use Rattle.std.specs.Int.{w16, w32, w64, to_le_bytes};
ghost use Rattle.nvm_values.specs.Sqe.{number_at};

use byteorder::{ByteOrder, LittleEndian};

/// The number in the 2 bytes from that place.
pub fn u16_at(b: &[u8], at: usize) -> u16
    requires { at + 2 ≤ length b.now }
    ensures { result ≡ number_at w16 at b.now }
{
    LittleEndian::read_u16(&b[at..at + 2])
}

/// The number in the 4 bytes from that place.
pub fn u32_at(b: &[u8], at: usize) -> u32
    requires { at + 4 ≤ length b.now }
    ensures { result ≡ number_at w32 at b.now }
{
    LittleEndian::read_u32(&b[at..at + 4])
}

/// The number in the 8 bytes from that place.
pub fn u64_at(b: &[u8], at: usize) -> u64
    requires { at + 8 ≤ length b.now }
    ensures { result ≡ number_at w64 at b.now }
{
    LittleEndian::read_u64(&b[at..at + 8])
}

/// Writes the number's 2 bytes from that place on. The others stay.
pub fn put_u16(out: &mut [u8], at: usize, number: u16)
    requires { at + 2 ≤ length out.old }
    ensures { out.new ≡ take at out.old ++ to_le_bytes w16 number ++ drop (at + 2) out.old }
{
    LittleEndian::write_u16(&mut out[at..at + 2], number);
}

/// Writes the number's 4 bytes from that place on. The others stay.
pub fn put_u32(out: &mut [u8], at: usize, number: u32)
    requires { at + 4 ≤ length out.old }
    ensures { out.new ≡ take at out.old ++ to_le_bytes w32 number ++ drop (at + 4) out.old }
{
    LittleEndian::write_u32(&mut out[at..at + 4], number);
}

/// Writes the number's 8 bytes from that place on. The others stay.
pub fn put_u64(out: &mut [u8], at: usize, number: u64)
    requires { at + 8 ≤ length out.old }
    ensures { out.new ≡ take at out.old ++ to_le_bytes w64 number ++ drop (at + 8) out.old }
{
    LittleEndian::write_u64(&mut out[at..at + 8], number);
}
