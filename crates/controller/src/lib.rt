//! The controller's side of all queue pairs. For the layer above: its rings and each lane's window stand for that lane of
//! the model, and the fetches and the posts of a lane's turn are those of the model, which the controller tells; an admin
//! command is answered, and changes the controller, by the table of phases; and the blocks that a piece changed are posted
//! exactly where changes are logged and the queue is live.
#![tactic(auto)]

mod admin;
mod check;
mod controller;
mod pair;
mod slot;

pub use controller::Controller;
pub use ctl_state::Phase;
pub use nvm_model::LaneSet as PairSet;
