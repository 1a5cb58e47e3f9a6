//! A shelf: the part of the namespace that one medium keeps, on which the pieces of commands are done. For the layer
//! above: a piece calls the medium of its shelf once for each block up to where it stopped, and no other medium; what it
//! answers, and what it leaves in its entry and in its lane's data pages, is a function of the bytes of these calls,
//! which by a law is the model's effect where the blocks are told. The shelves of a namespace, one after another, are one
//! array of blocks.
#![tactic(auto)]

mod block;
mod clearing;
mod namespace;
mod shelf;
mod work;

pub use clearing::clear_under;
pub use namespace::Namespace;
pub use nvm_model::{Outcome, Piece, PieceResult, ShelfEntry};
pub use shelf::Shelf;
pub use work::do_piece;
