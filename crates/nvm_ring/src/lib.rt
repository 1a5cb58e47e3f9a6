//! The two rings of a queue pair, over their pages in guest memory: the controller's ends, which fetch entries and post
//! completions, and the guest's, which submit and reap (Base 2.1, the queue model: a ring is empty where head is tail,
//! and full where the place after tail is head). A submission ring has from 2 to 64 places of 64 bytes, a completion ring
//! from 2 to 256 of 16. For the layer above: each end keeps what its ring stands for, over wraps too, so that a fetch and
//! a reap give the oldest entry, none exactly where there is none, and a submit and a post add the newest.
#![tactic(auto)]

mod cq_ring;
mod guest_cq;
mod guest_sq;
mod place;
mod sq_ring;

pub use cq_ring::CqRing;
pub use guest_cq::GuestCq;
pub use guest_sq::GuestSq;
pub use nvm_model::RingState;
pub use place::{BadDoorbell, Full};
pub use sq_ring::SqRing;
