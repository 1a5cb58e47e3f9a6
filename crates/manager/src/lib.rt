//! The move of a suspended controller from one side to the other: its blocks, the guests' memory and its state.
//!
//! For the layer above: over every port, a cutover suspends the source, copies each block and each page that is owed, once
//! and ascending, hands the state over as an image in parts, and resumes the destination, and asks for nothing else. Both
//! sides then hold the same blocks, memory and state. Where a copy fails, it stops there: the source is as it was, but
//! suspended, and runs again as soon as the move is given up.
#![tactic(auto)]

mod manager;
mod owed;
mod port;
mod round;
mod side;
mod steps;
#[cfg(test)]
mod tests;
mod work;

pub use adm_values::{AdminCmd, AdminCpl, What};
pub use data_queue::Change;
pub use manager::{After, Manager, MediumFault, MovePhase, MoveSet, Pause};
pub use port::{Port, WorkPort};
pub use side::{CopyAnswer, Side};
