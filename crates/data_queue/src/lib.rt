//! A user data migration queue: the controller tells the manager in it which blocks were written, an entry of 32 bytes a
//! change, and raises a mark where it couldn't. For the layer above: a queue stands for the list of changes that were
//! posted since it was created, so many of which are taken; a post adds the newest, or raises the mark exactly where no
//! cell is free or the mark is up; a take gives the oldest, or none exactly where none is left; and each cell has the last
//! entry that is due there, with the phase tag of its pass.
#![tactic(auto)]

mod change;
mod places;
mod queue;

pub use change::Change;
pub use places::Places;
pub use queue::{BadHead, DataQueue, Full};
