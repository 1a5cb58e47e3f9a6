//! The rule of a change log that threads share: what each position of the log is, what each seat knows, and what each
//! atomic step leaves. For the layer above: at the end each seat's entries stand in the log in its order and each once, up
//! to the first position that was given up, and the mark is up exactly where one was.
#![tactic(auto)]

mod view;

pub use view::{Desk, Empty, Entry, Lost, View};
