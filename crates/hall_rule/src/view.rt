//! What a seat knows. No code makes a value of these types.
use crate::item::Item;
use std::collections::LinkedList;

/// A shelf that was locked, and the word that the lock wrote.
pub struct Lock {
    pub shelf: u64,
    pub word: u64,
}

/// A shelf that was busy, the word that was loaded, and the word that the exchange read.
pub struct Note {
    pub shelf: u64,
    pub seen: u64,
    pub read: u64,
}

/// What the first seat keeps of one holder.
pub struct Desk {
    /// 1 from the split to the join.
    pub out: u64,
    /// 1 from the split on.
    pub made: u64,
    /// The tickets that it may still draw, while its seat is not out.
    pub budget: u64,
    pub items: LinkedList<Item>,
    /// The shelves of the pieces that are left.
    pub todo: LinkedList<u64>,
    /// 1 once its seat has left.
    pub told: u64,
    pub locks: LinkedList<Lock>,
    pub notes: LinkedList<Note>,
}

pub struct View {
    /// 1 to 8 is a queue pair, 9 the manager, 0 the first seat or none.
    pub holder: u64,
    /// 0, or one more than the shelf that it has locked.
    pub at: u64,
    /// The word that the lock wrote.
    pub word: u64,
    /// What was done on the locked shelf before.
    pub log: LinkedList<Item>,
    /// 0, or one more than the shelf whose word it has loaded.
    pub looked: u64,
    /// The word that was loaded.
    pub seen: u64,
    /// The ticket word is at least this.
    pub low: u64,
    /// The holder whose seat is split next.
    pub aim: u64,
    /// The tickets that it may still draw.
    pub budget: u64,
    pub items: LinkedList<Item>,
    /// The shelves of the pieces that are left.
    pub todo: LinkedList<u64>,
    /// 1 once the seat has left.
    pub told: u64,
    pub locks: LinkedList<Lock>,
    pub notes: LinkedList<Note>,
    pub desks: LinkedList<Desk>,
}
