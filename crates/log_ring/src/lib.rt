//! A change queue that threads share: up to eight seats post and the first one takes, by single atomic steps on one word a
//! cell, and nobody waits. For the layer above: what the queue held when it was opened, and then what the seats posted in
//! the order of the positions that they drew, is what was taken and then what the queue holds once the log is closed; each
//! seat's entries stand there in its order and each once; a position that was given up ends them, and the mark is up
//! exactly where a post answered `Full`.
#![tactic(auto)]

mod end;
mod plays;
mod ring;
mod seat;
mod words;

pub use plays::{Law, Opened};
pub use ring::LogRing;
pub use seat::LogSeat;
