//! The rule of a hall, in which threads share shelves: what each word says, what each seat knows, and what each atomic step
//! leaves. For the layer above: at the end all that was done is one list ordered by tickets, in which each holder's items
//! are those that its seat did, in its order, and each shelf is what its items of this list made of it.
#![tactic(auto)]

mod item;
mod view;

pub use item::{Item, Work};
pub use view::{Desk, Lock, Note, View};
