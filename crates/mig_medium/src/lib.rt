//! A medium: the numbered blocks under a shelf of the store, which tells its blocks and its calls where it can, and
//! whose faults are counted. With it a medium in memory, which fails at the calls that it was told.
#![tactic(auto)]

mod medium;
mod memory;

pub use medium::Medium;
pub use memory::MemMedium;
pub use nvm_model::Step;
