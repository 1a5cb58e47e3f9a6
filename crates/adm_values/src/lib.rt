//! Admin commands of host managed live migration: Track Send, Track Receive, Migration Send, Migration Receive and
//! Controller Data Queue, each as a submission entry of 64 bytes, and what a controller answers to one.
//!
//! To a program that uses it alone the crate promises that 64 bytes are read as a command exactly where they are a
//! command's bytes, as that command and no other, and that for all other bytes the cause is told, with the first byte
//! behind which no command goes on.
#![tactic(auto)]

mod command;
mod kind;
mod limits;

pub use command::{AdminCmd, AdminCpl, What};
pub use kind::AdminRefusal;

#[cfg(test)]
mod tests;
