//! NVMe queue entries and statuses: what the fields of a submission entry say, which opcodes there are, and the
//! statuses by their names in the standard.
//!
//! To a program that uses it alone the crate promises that 64 bytes and a submission entry, as 16 bytes and a
//! completion, turn into one another and back without loss, each field exactly where the standard's layout has it.
#![tactic(auto)]

mod bytes;
mod cqe;
mod op;
mod sqe;
mod status;

pub use cqe::Cqe;
pub use op::Op;
pub use sqe::Sqe;
pub use status::Status;
