// Queue entries and their bytes.
ghost use Rattle.std.specs.Prelude.{◌≡◌, ◌≢◌, ◌≤◌, ◌==◌, MatchOption, cond};
ghost use Rattle.nvm_values.specs.Sqe.{count_of, fuse_of, psdt_of, slba_of, sqe_bytes, sqe_of};
ghost use Rattle.nvm_values.specs.Cqe.{cqe_bytes, cqe_of};
ghost use Rattle.nvmigrate_c.specs.Entries.{IsCqEntry, cqe_in, sqe_in};

use crate::code::{BAD_FIELD, OK};
use nvm_values::{Cqe, Sqe, Status};

/// A submission queue entry (Base 2.1, section 4.1.1). Any numbers are one.
#[repr(C)]
#[derive(Clone, Copy)]
pub struct SqEntry {
    pub opcode: u8,
    pub flags: u8,
    pub cid: u16,
    pub nsid: u32,
    pub cdw2: u32,
    pub cdw3: u32,
    pub mptr: u64,
    pub prp1: u64,
    pub prp2: u64,
    pub cdw10: u32,
    pub cdw11: u32,
    pub cdw12: u32,
    pub cdw13: u32,
    pub cdw14: u32,
    pub cdw15: u32,
}

/// A completion queue entry (Base 2.1, section 4.2): `phase`, `more` and `dnr` are 0 or 1, `sct` is at most 7, and
/// `crd` at most 3.
#[repr(C)]
#[derive(Clone, Copy)]
pub struct CqEntry {
    pub dw0: u32,
    pub dw1: u32,
    pub sqhd: u16,
    pub sqid: u16,
    pub cid: u16,
    pub phase: u8,
    pub sc: u8,
    pub sct: u8,
    pub crd: u8,
    pub more: u8,
    pub dnr: u8,
}

impl SqEntry {
    /// An entry of the library for C.
    pub(crate) fn of(e: &Sqe) -> SqEntry
        ensures { sqe_in result ≡ e.now }
    {
        SqEntry {
            opcode: e.opcode,
            flags: e.flags,
            cid: e.cid,
            nsid: e.nsid,
            cdw2: e.cdw2,
            cdw3: e.cdw3,
            mptr: e.mptr,
            prp1: e.prp1,
            prp2: e.prp2,
            cdw10: e.cdw10,
            cdw11: e.cdw11,
            cdw12: e.cdw12,
            cdw13: e.cdw13,
            cdw14: e.cdw14,
            cdw15: e.cdw15,
        }
    }

    /// C's entry for the library.
    pub(crate) fn sqe(&self) -> Sqe
        ensures { result ≡ sqe_in self.now }
    {
        Sqe {
            opcode: self.opcode,
            flags: self.flags,
            cid: self.cid,
            nsid: self.nsid,
            cdw2: self.cdw2,
            cdw3: self.cdw3,
            mptr: self.mptr,
            prp1: self.prp1,
            prp2: self.prp2,
            cdw10: self.cdw10,
            cdw11: self.cdw11,
            cdw12: self.cdw12,
            cdw13: self.cdw13,
            cdw14: self.cdw14,
            cdw15: self.cdw15,
        }
    }
}

impl CqEntry {
    /// A completion of the library for C.
    pub(crate) fn of(c: Cqe) -> CqEntry
        ensures value { cqe_in result ≡ c }
        ensures fits { IsCqEntry result }
    {
        CqEntry {
            dw0: c.dw0,
            dw1: c.dw1,
            sqhd: c.sqhd,
            sqid: c.sqid,
            cid: c.cid,
            phase: flag(c.phase),
            sc: c.status.sc,
            sct: c.status.sct,
            crd: c.mid,
            more: flag(c.more),
            dnr: flag(c.dnr),
        }
    }

    /// C's completion for the library; `None` exactly where a number is out of its range.
    pub(crate) fn cqe(&self) -> Option<Cqe>
        ensures { MatchOption result (IsCqEntry self.now → ⊥) (λ c. IsCqEntry self.now × (c ≡ cqe_in self.now)) }
    {
        if self.phase > 1 || self.sct > 7 || self.crd > 3 || self.more > 1 || self.dnr > 1 {
            return None;
        }
        Some(Cqe {
            dw0: self.dw0,
            dw1: self.dw1,
            sqhd: self.sqhd,
            sqid: self.sqid,
            cid: self.cid,
            phase: self.phase == 1,
            status: Status::new(self.sct, self.sc),
            mid: self.crd,
            more: self.more == 1,
            dnr: self.dnr == 1,
        })
    }
}

/// A flag for C: 1 where it is set, and else 0.
pub(crate) fn flag(set: bool) -> u8
    ensures value { result ≡ cond set 1 0 }
    ensures back { (result == 1) ≡ set }
    ensures fits { result ≤ 1 }
{
    if set { 1 } else { 0 }
}

/// The 64 bytes of an entry.
#[unsafe(no_mangle)]
pub extern "C" fn nvmigrate_sqe_to_bytes(entry: &SqEntry, out: &mut [u8; 64])
    ensures bytes { out.new ≡ sqe_bytes (sqe_in entry.now) }
    ensures back { sqe_of out.new ≡ sqe_in entry.now }
{
    *out = entry.sqe().to_bytes();
}

/// The entry of 64 bytes. Any 64 bytes are one.
#[unsafe(no_mangle)]
pub extern "C" fn nvmigrate_sqe_from_bytes(b: &[u8; 64], out: &mut SqEntry)
    ensures fields { sqe_in out.new ≡ sqe_of b.now }
    ensures back { sqe_bytes (sqe_in out.new) ≡ b.now }
{
    *out = SqEntry::of(&Sqe::from_bytes(b));
}

/// Fused operation: bits 1:0 of the flags.
#[unsafe(no_mangle)]
pub extern "C" fn nvmigrate_sqe_fuse(entry: &SqEntry) -> u8
    ensures { result ≡ fuse_of (sqe_in entry.now) }
{
    entry.sqe().fuse()
}

/// PRP or SGL for data transfer: bits 7:6 of the flags.
#[unsafe(no_mangle)]
pub extern "C" fn nvmigrate_sqe_psdt(entry: &SqEntry) -> u8
    ensures { result ≡ psdt_of (sqe_in entry.now) }
{
    entry.sqe().psdt()
}

/// The first logical block: dwords 10 and 11.
#[unsafe(no_mangle)]
pub extern "C" fn nvmigrate_sqe_slba(entry: &SqEntry) -> u64
    ensures { result ≡ slba_of (sqe_in entry.now) }
{
    entry.sqe().slba()
}

/// The number of logical blocks, from 1 to 65,536: bits 15:0 of dword 12, plus 1.
#[unsafe(no_mangle)]
pub extern "C" fn nvmigrate_sqe_count(entry: &SqEntry) -> u32
    ensures { result ≡ count_of (sqe_in entry.now) }
{
    entry.sqe().count()
}

/// The 16 bytes of a completion.
///
/// # Errors
///
/// `BAD_FIELD` exactly where a number of it is out of its range; `out` stays as it was.
#[unsafe(no_mangle)]
pub extern "C" fn nvmigrate_cqe_to_bytes(entry: &CqEntry, out: &mut [u8; 16]) -> u32
    ensures done { IsCqEntry entry.now → result ≡ OK }
    ensures bad { (IsCqEntry entry.now → ⊥) → result ≡ BAD_FIELD }
    ensures bytes { result ≡ OK → out.new ≡ cqe_bytes (cqe_in entry.now) }
    ensures back { result ≡ OK → cqe_of out.new ≡ cqe_in entry.now }
    ensures same { result ≢ OK → out.new ≡ out.old }
{
    let Some(cqe) = entry.cqe() else {
        return BAD_FIELD;
    };
    *out = cqe.to_bytes();
    OK
}

/// The completion of 16 bytes. Any 16 bytes are one.
#[unsafe(no_mangle)]
pub extern "C" fn nvmigrate_cqe_from_bytes(b: &[u8; 16], out: &mut CqEntry)
    ensures fields { cqe_in out.new ≡ cqe_of b.now }
    ensures back { cqe_bytes (cqe_in out.new) ≡ b.now }
    ensures fits { IsCqEntry out.new }
{
    *out = CqEntry::of(Cqe::from_bytes(b));
}
