ghost use Rattle.std.specs.Prelude.{◌≡◌, ◌≢◌, length, IfOk, IfErr, MatchResult};
ghost use Rattle.nvm_identify.specs.Namespace.{IsNamespace, namespace_bytes, namespace_of, own_of};

use crate::bytes::{Length, clear, put, put_u64, u64_at};

/// What a namespace says of itself (NVM Command Set, Identify Namespace data structure): 4,096 bytes, little-endian.
#[derive(Clone, Copy, Debug, PartialEq, Eq)]
pub struct IdNamespace {
    /// Namespace Size, in logical blocks: bytes 7:0.
    pub nsze: u64,
    /// Namespace Capacity, in logical blocks: bytes 15:8.
    pub ncap: u64,
    /// Namespace Utilization, in logical blocks: bytes 23:16.
    pub nuse: u64,
    /// Number of LBA Formats, less one: byte 25.
    pub nlbaf: u8,
    /// Formatted LBA Size, the LBA format in use: byte 26.
    pub flbas: u8,
    /// LBA Data Size of LBA Format 0, as a power of two of bytes: bits 23:16 of bytes 131:128.
    pub lbads: u8,
}

/// What the product's namespace of that many blocks says of itself: all of them are there, each of 512 bytes.
pub fn own_namespace(blocks: u32) -> IdNamespace
    ensures { result ≡ own_of blocks }
{
    let blocks = u64::from(blocks);
    IdNamespace {
        nsze: blocks,
        ncap: blocks,
        nuse: blocks,
        nlbaf: 0,
        flbas: 0,
        lbads: 9,
    }
}

impl IdNamespace {
    /// The value that these bytes say. What stands outside the fields isn't read.
    ///
    /// # Errors
    ///
    /// `Length` exactly where there aren't 4,096 bytes, with the number of those that are there.
    pub fn from_bytes(b: &[u8]) -> Result<IdNamespace, Length>
        ensures exact { MatchResult result (λ _. length b.now ≡ 4096) (λ _. length b.now ≢ 4096) }
        ensures fields { IfOk result (λ n. n ≡ namespace_of b.now) }
        ensures told { IfErr result (λ e. e.got ≡ length b.now) }
    {
        if b.len() != 4096 {
            return Err(Length { got: b.len() });
        }
        Ok(IdNamespace {
            nsze: u64_at(b, 0),
            ncap: u64_at(b, 8),
            nuse: u64_at(b, 16),
            nlbaf: b[25],
            flbas: b[26],
            lbads: b[130],
        })
    }

    /// Makes `out` the bytes of this value: its fields, and zeroes elsewhere.
    pub fn to_bytes(&self, out: &mut [u8; 4096])
        ensures bytes { out.new ≡ namespace_bytes self.now }
        ensures back { namespace_of out.new ≡ self.now }
        ensures fits { IsNamespace self.now }
    {
        clear(out);
        put_u64(out, 0, self.nsze);
        put_u64(out, 8, self.ncap);
        put_u64(out, 16, self.nuse);
        put(out, 25, &[self.nlbaf, self.flbas]);
        put(out, 130, &[self.lbads]);
    }
}
