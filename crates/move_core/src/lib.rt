//! The pure core of a live migration: two lists of blocks, what is still owed from one to the other, a log of written
//! ranges with a mark where one was lost, and the ranges of each lane that aren't in the log yet. For the layer above: a
//! step is done exactly where the rules allow it; each block in which the lists differ is owed, or in a range that is
//! still told, or the mark is up; so both lists are equal where the destination resumes, and from then on the source's
//! never changes.
#![tactic(auto)]

mod bytes;
mod event;
mod lane_spans;
mod law;
mod phase;
mod state;
mod steps;

pub use bytes::Bytes;
pub use event::{CoreEvent, NotNow};
pub use law::moves_are_covered;
pub use phase::CorePhase;
pub use state::Core;
