ghost use Rattle.std.specs.Prelude.{◌≡◌, ◌≢◌, length, IfOk, IfErr, MatchResult};
ghost use Rattle.nvm_identify.specs.Controller.{IsController, controller_bytes, controller_of, own};

use crate::bytes::{Length, array_at, clear, put, put_u16, put_u32, u16_at, u32_at};

/// What the controller says of itself (Base 2.1, Identify Controller data structure): 4,096 bytes, little-endian.
#[derive(Clone, Copy, Debug, PartialEq, Eq)]
pub struct IdController {
    /// PCI Vendor ID: bytes 1:0.
    pub vid: u16,
    /// Serial Number, ASCII, filled up with spaces: bytes 23:04.
    pub sn: [u8; 20],
    /// Model Number, ASCII, filled up with spaces: bytes 63:24.
    pub mn: [u8; 40],
    /// Firmware Revision, ASCII, filled up with spaces: bytes 71:64.
    pub fr: [u8; 8],
    /// Maximum Data Transfer Size, as a power of two of the smallest memory page; 0 is no limit: byte 77.
    pub mdts: u8,
    /// Controller ID: bytes 79:78.
    pub cntlid: u16,
    /// Submission Queue Entry Size, most and least, each as a power of two in half a byte: byte 512.
    pub sqes: u8,
    /// Completion Queue Entry Size, most and least, each as a power of two in half a byte: byte 513.
    pub cqes: u8,
    /// Number of Namespaces: bytes 519:516.
    pub nn: u32,
}

/// What the product's controller says of itself: transfers of at most 8 pages, entries of 64 and 16 bytes, one
/// namespace.
pub fn own_controller() -> IdController
    ensures { result ≡ own }
{
    IdController {
        vid: 0,
        sn: *b"NVMIGRATE0000000001 ",
        mn: *b"nvmigrate virtual controller            ",
        fr: *b"1       ",
        mdts: 3,
        cntlid: 1,
        sqes: 0x66,
        cqes: 0x44,
        nn: 1,
    }
}

impl IdController {
    /// The value that these bytes say. What stands outside the fields isn't read.
    ///
    /// # Errors
    ///
    /// `Length` exactly where there aren't 4,096 bytes, with the number of those that are there.
    pub fn from_bytes(b: &[u8]) -> Result<IdController, Length>
        ensures exact { MatchResult result (λ _. length b.now ≡ 4096) (λ _. length b.now ≢ 4096) }
        ensures fields { IfOk result (λ c. c ≡ controller_of b.now) }
        ensures told { IfErr result (λ e. e.got ≡ length b.now) }
    {
        if b.len() != 4096 {
            return Err(Length { got: b.len() });
        }
        Ok(IdController {
            vid: u16_at(b, 0),
            sn: array_at(b, 4),
            mn: array_at(b, 24),
            fr: array_at(b, 64),
            mdts: b[77],
            cntlid: u16_at(b, 78),
            sqes: b[512],
            cqes: b[513],
            nn: u32_at(b, 516),
        })
    }

    /// Makes `out` the bytes of this value: its fields, and zeroes elsewhere.
    pub fn to_bytes(&self, out: &mut [u8; 4096])
        ensures bytes { out.new ≡ controller_bytes self.now }
        ensures back { controller_of out.new ≡ self.now }
        ensures fits { IsController self.now }
    {
        clear(out);
        put_u16(out, 0, self.vid);
        put(out, 4, &self.sn);
        put(out, 24, &self.mn);
        put(out, 64, &self.fr);
        put(out, 77, &[self.mdts]);
        put_u16(out, 78, self.cntlid);
        put(out, 512, &[self.sqes, self.cqes]);
        put_u32(out, 516, self.nn);
    }
}
