//! What a seat knows. No value of these types is made.
use std::collections::LinkedList;

/// A posted entry: its position, and the word of its cell.
pub struct Entry {
    pub at: u64,
    pub word: u64,
}

/// A position that was given up, and the head that was loaded after it was drawn.
pub struct Lost {
    pub at: u64,
    pub head: u64,
}

/// A head at which no entry was found, and the word of its cell.
pub struct Empty {
    pub head: u64,
    pub word: u64,
}

/// What the first seat keeps of a seat that was split off from it.
pub struct Desk {
    /// 1 from the split to the join.
    pub out: u64,
    /// What it posted, once it was joined.
    pub posted: LinkedList<Entry>,
}

pub struct View {
    /// 0 is the first seat, the others count from 1.
    pub number: u64,
    /// How many cells the log has.
    pub cells: u64,
    /// 1 until the seat is joined.
    pub live: u64,
    /// 0, or one more than the position that was drawn and isn't filled.
    pub pending: u64,
    /// 0, or one more than the head that this call loaded.
    pub head: u64,
    /// 0, or one more than the word that was found at the head.
    pub seen: u64,
    /// The positions that it may still draw.
    pub budget: u64,
    /// The seats that it may still split off.
    pub seats: u64,
    pub posted: LinkedList<Entry>,
    /// The words that it took.
    pub taken: LinkedList<u64>,
    pub lost: LinkedList<Lost>,
    pub empty: LinkedList<Empty>,
    pub desks: LinkedList<Desk>,
}
