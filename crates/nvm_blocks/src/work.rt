// A piece's work: its blocks go between the medium and the guest's pages, one at a time and ascending.
ghost use Rattle.std.specs.Prelude.{◌≡◌, ◌+◌, ◌<◌, ℕ, List, length};
ghost use Rattle.nvm_values.specs.declared.op.Op.TheVariants.{Write, Read, Compare, WriteZeroes, Verify, Flush};
ghost use Rattle.guest_ram.specs.Window.{data_pages};
ghost use Rattle.nvm_blocks.specs.Work.{HasApplied, HasBlocks, HasDataPages, HasPages, IsSameButData, plain};

use crate::block::{data_block, digest_more, keep_block, zero_block};
use guest_ram::Window;
use mig_base::Failed;
use mig_medium::Medium;
use nvm_model::{Outcome, Piece, PieceResult};
use nvm_values::Op;
use sha2::{Digest, Sha256};

/// Puts the piece's data.
fn write<M: Medium>(piece: &Piece, first: u32, window: &Window, medium: &mut M) -> Outcome
    requires op { piece.now.op ≡ Write }
    requires blocks { HasBlocks first piece.now.span.count (M.state medium.old) }
    requires pages { HasDataPages piece.now (length (data_pages window.now)) }
    ensures { HasApplied M.state M.moves piece.now first (plain result)
        medium.old (data_pages window.now) medium.new (data_pages window.now) }
{
    let mut block = [0; 512];
    for i in 0..piece.span.count {
        block.copy_from_slice(data_block(piece, window, i));
        match medium.put(first + i, &block) {
            Ok(()) => {}
            Err(Failed) => return Outcome::Faulted { at: i },
        }
    }
    Outcome::Done
}

/// Puts zeroes. The guest's pages have no part in it.
fn write_zeroes<M: Medium>(piece: &Piece, first: u32, medium: &mut M) -> Outcome
    requires op { piece.now.op ≡ WriteZeroes }
    requires blocks { HasBlocks first piece.now.span.count (M.state medium.old) }
    ensures { (memory : List (List ℕ)) → HasApplied M.state M.moves piece.now first (plain result)
        medium.old memory medium.new memory }
{
    let zeroes = zero_block();
    for i in 0..piece.span.count {
        match medium.put(first + i, &zeroes) {
            Ok(()) => {}
            Err(Failed) => return Outcome::Faulted { at: i },
        }
    }
    Outcome::Done
}

/// Gets every block and keeps none. The guest's pages have no part in it.
fn verify<M: Medium>(piece: &Piece, first: u32, medium: &mut M) -> Outcome
    requires op { piece.now.op ≡ Verify }
    requires blocks { HasBlocks first piece.now.span.count (M.state medium.old) }
    ensures { (memory : List (List ℕ)) → HasApplied M.state M.moves piece.now first (plain result)
        medium.old memory medium.new memory }
{
    let mut block = [0; 512];
    for i in 0..piece.span.count {
        match medium.get(first + i, &mut block) {
            Ok(()) => {}
            Err(Failed) => return Outcome::Faulted { at: i },
        }
    }
    Outcome::Done
}

/// Gets every block, and compares it with the piece's data.
fn compare<M: Medium>(piece: &Piece, first: u32, window: &Window, medium: &mut M) -> Outcome
    requires op { piece.now.op ≡ Compare }
    requires blocks { HasBlocks first piece.now.span.count (M.state medium.old) }
    requires pages { HasDataPages piece.now (length (data_pages window.now)) }
    ensures { HasApplied M.state M.moves piece.now first (plain result)
        medium.old (data_pages window.now) medium.new (data_pages window.now) }
{
    let mut block = [0; 512];
    for i in 0..piece.span.count {
        match medium.get(first + i, &mut block) {
            Ok(()) => {}
            Err(Failed) => return Outcome::Faulted { at: i },
        }
        if block.as_slice() != data_block(piece, window, i) {
            return Outcome::Differs { at: i };
        }
    }
    Outcome::Done
}

/// Gets every block into the guest's pages, with the digest of their bytes.
fn read<M: Medium>(
    piece: &Piece,
    first: u32,
    window: &mut Window,
    medium: &mut M,
) -> (Outcome, [u8; 32])
    requires op { piece.now.op ≡ Read }
    requires blocks { HasBlocks first piece.now.span.count (M.state medium.old) }
    requires pages { HasDataPages piece.now (length (data_pages window.old)) }
    ensures applied { HasApplied M.state M.moves piece.now first (record { outcome = result.0; digest = result.1 })
        medium.old (data_pages window.old) medium.new (data_pages window.new) }
    ensures window { IsSameButData window.old window.new }
{
    let mut hasher = Sha256::new();
    let mut block = [0; 512];
    for i in 0..piece.span.count {
        match medium.get(first + i, &mut block) {
            Ok(()) => {}
            Err(Failed) => return (Outcome::Faulted { at: i }, hasher.finalize()),
        }
        keep_block(piece, window, i, &block);
        digest_more(&mut hasher, &block);
    }
    (Outcome::Done, hasher.finalize())
}

/// Does a piece whose first block is block `first` of the medium: each block moves once between the medium and its page,
/// ascending, until a call of the medium fails or, for a Compare, a block differs.
pub fn do_piece<M: Medium>(
    piece: &Piece,
    first: u32,
    window: &mut Window,
    medium: &mut M,
) -> PieceResult
    requires op { piece.now.op ≡ Flush → ⊥ }
    requires blocks { HasBlocks first piece.now.span.count (M.state medium.old) }
    requires pages { HasPages piece.now (length (data_pages window.old)) }
    ensures applied { HasApplied M.state M.moves piece.now first result
        medium.old (data_pages window.old) medium.new (data_pages window.new) }
    ensures window { IsSameButData window.old window.new }
    ensures kept { (piece.now.op ≡ Read → ⊥) → window.new ≡ window.old }
{
    match piece.op {
        Op::Flush => unreachable!(),
        Op::Write => plain(write(piece, first, window, medium)),
        Op::WriteZeroes => plain(write_zeroes(piece, first, medium)),
        Op::Verify => plain(verify(piece, first, medium)),
        Op::Compare => plain(compare(piece, first, window, medium)),
        Op::Read => {
            let (outcome, digest) = read(piece, first, window, medium);
            PieceResult { outcome, digest }
        }
    }
}

/// The result of a piece that reads nothing.
#[tactic(auto, unfolding(nvm_model::specs::Shelf::no_digest))]
fn plain(outcome: Outcome) -> PieceResult
    ensures { result ≡ plain outcome }
{
    PieceResult {
        outcome,
        digest: [0; 32],
    }
}
