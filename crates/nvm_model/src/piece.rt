ghost use Rattle.nvm_model.specs.Shelf.{PieceIsLocal};
ghost use Rattle.nvm_model.specs.Trace.{PieceCallsHaveEffect};

use crate::{Outcome, Pages};
use mig_base::{LaneNo, Span};
use nvm_values::Op;

/// The part of a command's blocks that lies in one shelf. Its first block is block `at`, from 0, of the command's data;
/// eight blocks of that stand in each of `pages`.
#[derive(Clone, Copy)]
pub struct Piece {
    pub lane: LaneNo,
    pub cid: u16,
    pub op: Op,
    pub span: Span,
    pub at: u32,
    pub pages: Pages,
}

/// How a piece ended, and the SHA-256 of the bytes that a Read's done blocks gave; 32 zeroes for other commands.
#[derive(Clone, Copy, Debug, PartialEq, Eq)]
pub struct PieceResult {
    pub outcome: Outcome,
    pub digest: [u8; 32],
}

/// A piece that was done on a shelf: its lane, its place among the lane's pieces, the ticket that it drew, its result.
#[derive(Clone, Copy, Debug, PartialEq, Eq)]
pub struct ShelfEntry {
    pub lane: LaneNo,
    pub index: u32,
    pub ticket: u64,
    pub result: PieceResult,
}

/// A law: what a piece does to the blocks of its shelf, it does to the whole namespace, and no other shelf changes.
pub fn piece_is_local()
    ensures { PieceIsLocal }
{}

/// A law: where a piece's calls were made on blocks, it had the effect that the model gives it.
pub fn piece_calls_have_effect()
    ensures { PieceCallsHaveEffect }
{}
