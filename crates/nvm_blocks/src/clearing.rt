// The entries of the shelves on which pieces lie.
ghost use Rattle.std.specs.Prelude.{◌≡◌, ◌<◌, [], All};
ghost use Rattle.nvm_blocks.specs.Namespace.{IsSameButEntries, block_count, entries_at};

use crate::{Namespace, Piece};
use mig_medium::Medium;

/// Drops the entries of the shelves of a namespace on which pieces lie.
pub fn clear_under<M: Medium>(namespace: &mut Namespace<M>, pieces: &[Piece])
    requires { All (λ p. p.span.first < block_count namespace.old) pieces.now }
    ensures kept { IsSameButEntries namespace.old namespace.new }
    ensures cleared { All (λ p. entries_at namespace.new p.span.first ≡ []) pieces.now }
{
    for piece in pieces {
        namespace.clear_at(piece.span.first);
    }
}
