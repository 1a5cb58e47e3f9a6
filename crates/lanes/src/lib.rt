//! The guests. For the layer above: a guest and its window stand for a lane of the model, and each reap and each act of
//! the guest is that lane's event, or nothing where none is legal.
#![tactic(auto)]

mod act;
mod guest;

pub use act::{entry_of, write_act};
pub use guest::{ActAnswer, Guest};
pub use nvm_model::{Act, LaneSet as PairSet};
