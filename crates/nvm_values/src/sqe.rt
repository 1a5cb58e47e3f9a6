ghost use Rattle.std.specs.Prelude.{◌≡◌};
ghost use Rattle.nvm_values.specs.Sqe.{IsSqe, fuse_of, psdt_of, slba_of, count_of, sqe_bytes, sqe_of};

use crate::bytes::{put_u16, put_u32, put_u64, u16_at, u32_at, u64_at};

/// A submission queue entry (Base 2.1, section 4.1.1), dword by dword where no command of the set names a field.
#[derive(Clone, Copy, Debug, PartialEq, Eq)]
pub struct Sqe {
    pub opcode: u8,
    pub flags: u8,
    pub cid: u16,
    pub nsid: u32,
    pub cdw2: u32,
    pub cdw3: u32,
    pub mptr: u64,
    pub prp1: u64,
    pub prp2: u64,
    pub cdw10: u32,
    pub cdw11: u32,
    pub cdw12: u32,
    pub cdw13: u32,
    pub cdw14: u32,
    pub cdw15: u32,
}

impl Sqe {
    /// Fused operation: bits 1:0 of the flags.
    pub fn fuse(&self) -> u8
        ensures { result ≡ fuse_of self.now }
    {
        self.flags % 4
    }

    /// PRP or SGL for data transfer: bits 7:6 of the flags.
    pub fn psdt(&self) -> u8
        ensures { result ≡ psdt_of self.now }
    {
        self.flags / 64
    }

    /// The first logical block: dwords 10 and 11.
    pub fn slba(&self) -> u64
        ensures { result ≡ slba_of self.now }
    {
        u64::from(self.cdw10) + u64::from(self.cdw11) * 4_294_967_296
    }

    /// The number of logical blocks, from 1 to 65,536: bits 15:0 of dword 12, plus 1.
    pub fn count(&self) -> u32
        ensures { result ≡ count_of self.now }
    {
        self.cdw12 % 65_536 + 1
    }
}

impl Sqe {
    /// The entry of these 64 bytes. Any 64 bytes are one.
    pub fn from_bytes(b: &[u8; 64]) -> Sqe
        ensures fields { result ≡ sqe_of b.now }
        ensures back { sqe_bytes result ≡ b.now }
        ensures fits { IsSqe result }
    {
        Sqe {
            opcode: b[0],
            flags: b[1],
            cid: u16_at(b, 2),
            nsid: u32_at(b, 4),
            cdw2: u32_at(b, 8),
            cdw3: u32_at(b, 12),
            mptr: u64_at(b, 16),
            prp1: u64_at(b, 24),
            prp2: u64_at(b, 32),
            cdw10: u32_at(b, 40),
            cdw11: u32_at(b, 44),
            cdw12: u32_at(b, 48),
            cdw13: u32_at(b, 52),
            cdw14: u32_at(b, 56),
            cdw15: u32_at(b, 60),
        }
    }

    /// The 64 bytes of this entry.
    pub fn to_bytes(&self) -> [u8; 64]
        ensures bytes { result ≡ sqe_bytes self.now }
        ensures back { sqe_of result ≡ self.now }
        ensures fits { IsSqe self.now }
    {
        bytes_of(*self)
    }
}

// The entry comes by value, so that the clauses know that its numbers fit.
fn bytes_of(entry: Sqe) -> [u8; 64]
    ensures bytes { result ≡ sqe_bytes entry }
    ensures fits { IsSqe entry }
{
    let mut out = [0u8; 64];
    out[0] = entry.opcode;
    out[1] = entry.flags;
    put_u16(&mut out, 2, entry.cid);
    put_u32(&mut out, 4, entry.nsid);
    put_u32(&mut out, 8, entry.cdw2);
    put_u32(&mut out, 12, entry.cdw3);
    put_u64(&mut out, 16, entry.mptr);
    put_u64(&mut out, 24, entry.prp1);
    put_u64(&mut out, 32, entry.prp2);
    put_u32(&mut out, 40, entry.cdw10);
    put_u32(&mut out, 44, entry.cdw11);
    put_u32(&mut out, 48, entry.cdw12);
    put_u32(&mut out, 52, entry.cdw13);
    put_u32(&mut out, 56, entry.cdw14);
    put_u32(&mut out, 60, entry.cdw15);
    out
}
