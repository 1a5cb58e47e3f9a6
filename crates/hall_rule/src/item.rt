//! What was done in a hall, as contracts see it. No code makes a value of these types.
use nvm_model::{Call, PieceResult};
use std::collections::LinkedList;

/// What was done: a piece, with its index and result, or a copy of a block of the namespace.
pub enum Work {
    Served(u64, PieceResult),
    Copied(u64),
}

/// A piece or a copy that was done, with the calls of its medium.
pub struct Item {
    pub holder: u64,
    pub shelf: u64,
    pub ticket: u64,
    pub what: Work,
    pub calls: LinkedList<Call>,
}
