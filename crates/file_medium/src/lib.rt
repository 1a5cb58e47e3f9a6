//! Media over one open file: each is a part of it, with its blocks at their places there. For the layer above: a part
//! tells no blocks and no trace, its size and its place never change, and a call fails only where its count of faults
//! rose. What the file holds is told by nobody: this is the edge that is trusted.
#![tactic(auto)]

mod fault;
mod medium;
mod open;
mod transfer;

pub use fault::OpenFault;
pub use medium::FileMedium;
pub use open::open_files;

#[cfg(test)]
mod tests;
