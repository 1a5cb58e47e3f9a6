ghost use Rattle.std.specs.Prelude.{◌≡◌, ◌≤◌};
ghost use Rattle.nvm_values.specs.Cqe.{CqeFields, IsCqe, cqe_bytes, cqe_of, status_word};

use crate::Status;
use crate::bytes::{put_u16, put_u32, u16_at, u32_at};
use std::marker::Model;

/// A completion queue entry (Base 2.1, section 4.2): the command's result, the head of its submission queue, the
/// queue and the command by their identifiers, the phase tag, the status, the command retry delay's index `mid`, from
/// 0 to 3, and the bits More and Do Not Retry. Contracts see these fields.
#[derive(Clone, Copy, Debug, PartialEq, Eq)]
pub struct Cqe {
    pub dw0: u32,
    pub dw1: u32,
    pub sqhd: u16,
    pub sqid: u16,
    pub cid: u16,
    pub phase: bool,
    pub status: Status,
    pub mid: u8,
    pub more: bool,
    pub dnr: bool,
}

impl Model for Cqe {
    ghost Value = { CqeFields };

    ghost view = { λ cqe. record {
      dw0 = cqe.dw0;
      dw1 = cqe.dw1;
      sqhd = cqe.sqhd;
      sqid = cqe.sqid;
      cid = cqe.cid;
      phase = cqe.phase;
      status = cqe.status;
      mid = cqe.mid;
      more = cqe.more;
      dnr = cqe.dnr;
    } };

    ghost invariant = { λ cqe. cqe.mid ≤ 3 };

    ghost inverse = { λ fields. record {
      dw0 = fields.dw0;
      dw1 = fields.dw1;
      sqhd = fields.sqhd;
      sqid = fields.sqid;
      cid = fields.cid;
      phase = fields.phase;
      status = fields.status;
      mid = fields.mid;
      more = fields.more;
      dnr = fields.dnr;
    } };
}

impl Cqe {
    /// The completion of these 16 bytes. Any 16 bytes are one.
    pub fn from_bytes(b: &[u8; 16]) -> Cqe
        ensures fields { result ≡ cqe_of b.now }
        ensures back { cqe_bytes result ≡ b.now }
        ensures fits { IsCqe result }
    {
        let word = u16_at(b, 14);
        Cqe {
            dw0: u32_at(b, 0),
            dw1: u32_at(b, 4),
            sqhd: u16_at(b, 8),
            sqid: u16_at(b, 10),
            cid: u16_at(b, 12),
            phase: word % 2 == 1,
            status: Status::new((word / 512 % 8) as u8, (word / 2 % 256) as u8),
            mid: (word / 4096 % 4) as u8,
            more: word / 16_384 % 2 == 1,
            dnr: word / 32_768 == 1,
        }
    }

    /// The 16 bytes of this completion.
    pub fn to_bytes(&self) -> [u8; 16]
        ensures bytes { result ≡ cqe_bytes self.now }
        ensures back { cqe_of result ≡ self.now }
        ensures fits { IsCqe self.now }
    {
        bytes_of(*self)
    }
}

// The completion comes by value, so that the clauses know that its numbers fit.
fn bytes_of(cqe: Cqe) -> [u8; 16]
    ensures bytes { result ≡ cqe_bytes cqe }
    ensures fits { IsCqe cqe }
{
    let mut out = [0u8; 16];
    put_u32(&mut out, 0, cqe.dw0);
    put_u32(&mut out, 4, cqe.dw1);
    put_u16(&mut out, 8, cqe.sqhd);
    put_u16(&mut out, 10, cqe.sqid);
    put_u16(&mut out, 12, cqe.cid);
    put_u16(&mut out, 14, word_of(cqe));
    out
}

// The last word: the phase tag, the status, the retry delay's index, More and Do Not Retry.
fn word_of(cqe: Cqe) -> u16
    ensures { result ≡ status_word cqe }
{
    let status = u16::from(cqe.status.sc) * 2 + u16::from(cqe.status.sct) * 512;
    u16::from(cqe.phase)
        + status
        + u16::from(cqe.mid) * 4_096
        + u16::from(cqe.more) * 16_384
        + u16::from(cqe.dnr) * 32_768
}
