//! The pieces of a turn, lane by lane. For the layer above: each lane's pieces stand in the order in which they were
//! pushed, in room that was taken when the plan was made.
#![tactic(auto)]

mod plan;

pub use nvm_model::Piece;
pub use plan::Plan;

#[cfg(test)]
mod tests;
