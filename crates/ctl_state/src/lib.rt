//! The state of a controller as bytes: the image that Migration Receive gives and Migration Send takes, in parts of any
//! length.
//!
//! To a program that uses it alone the crate promises that an image has each field of a controller's queue pairs exactly
//! where the layout has it, that bytes which are fed in parts begin an image at every time, however it is cut, that the
//! first byte with which none goes on is told, and that what was fed whole is the state whose image it is, and no other.
//!
//! It also has what contracts see of a controller, its phases, and the table of its admin commands with their refusals: what
//! a controller keeps, and what a manager of a move relies on.
#![tactic(auto)]

mod bounds;
mod image;
mod parts;
mod phase;
mod refusal;

pub use image::{Image, PairState};
pub use nvm_ring::RingState;
pub use parts::{PartRefusal, Parts, image_is_taken};
pub use phase::Phase;
pub use refusal::Refusal;

#[cfg(test)]
mod tests;
