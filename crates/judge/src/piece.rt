// A piece as a transcript tells it.
ghost use Rattle.std.specs.Prelude.{◌≡◌, ◌≤◌, ◌↔◌, ℕ, IfSome, IsTrue, List, is_some, length};
ghost use Rattle.guest_ram.specs.Window.{data_pages};
ghost use Rattle.nvm_blocks.specs.Work.{IsForShelf, IsSameButData};
ghost use Rattle.judge.specs.Decides.{Decides};
ghost use Rattle.judge.specs.Piece.{EndsSo, failing_block, told_digest};

use crate::replay::Replay;
use guest_ram::Window;
use nvm_blocks::do_piece;
use nvm_model::{Outcome, Piece, PieceResult};
use nvm_values::Op;

/// Does a piece over the namespace, in which the call fails that a transcript says has failed. Its result, if it is what
/// the transcript tells.
pub(crate) fn replay(
    piece: &Piece,
    outcome: Outcome,
    digest: Option<[u8; 32]>,
    window: &mut Window,
    namespace: &mut Replay,
) -> Option<PieceResult>
    requires piece { IsForShelf 0 (length namespace.old.blocks) (length (data_pages window.old)) piece.now }
    requires few { length namespace.old.blocks ≤ 131072 }
    ensures ends { Decides (is_some result) (λ (x : List (List ℕ) × List (List ℕ)). EndsSo piece.now outcome digest namespace.old.blocks (data_pages window.old) x.0 x.1) (namespace.new.blocks, data_pages window.new) }
    ensures outcome { IfSome result (λ r. r.outcome ≡ outcome) }
    ensures window { IsSameButData window.old window.new }
    ensures size { length namespace.new.blocks ≡ length namespace.old.blocks }
{
    namespace.fail_at(failing_block(piece, outcome));
    let result = do_piece(piece, piece.span.first, window, namespace);
    if is_told(piece.op, &result, outcome, digest) {
        Some(result)
    } else {
        None
    }
}

/// The block whose call failed, if one did.
fn failing_block(piece: &Piece, outcome: Outcome) -> Option<u32>
    ensures { result ≡ failing_block piece.now.span.first outcome }
{
    match outcome {
        Outcome::Faulted { at } => Some(piece.span.first.saturating_add(at)),
        Outcome::Done | Outcome::Differs { .. } => None,
    }
}

/// Whether a transcript that tells this outcome and this digest tells what a piece came to.
fn is_told(op: Op, done: &PieceResult, outcome: Outcome, digest: Option<[u8; 32]>) -> bool
    ensures { IsTrue result ↔ (done.now.outcome ≡ outcome) × (told_digest op done.now.digest ≡ digest) }
{
    done.outcome == outcome && told_digest(op, done) == digest
}

/// The digest that a transcript tells of a piece: that of what was read.
fn told_digest(op: Op, done: &PieceResult) -> Option<[u8; 32]>
    ensures { result ≡ told_digest op done.now.digest }
{
    match op {
        Op::Read => Some(done.digest),
        Op::Flush | Op::Write | Op::Compare | Op::WriteZeroes | Op::Verify => None,
    }
}
