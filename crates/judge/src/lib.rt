//! The judge of transcripts. For the layer above: `check` says yes exactly where a text is a whole transcript for a script,
//! whose events are a legal history from a zeroed namespace and end in a complete world, and else tells the first line that
//! is wrong.
#![tactic(auto)]

mod command;
mod judging;
mod lane;
mod law;
mod next_line;
mod piece;
mod replay;
mod stage;
mod verdict;
mod world;

pub use judging::check;
pub use law::one_verdict;
pub use verdict::{Fault, Verdict};
