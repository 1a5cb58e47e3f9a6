//! The Identify data of the controller and of its namespace.
//!
//! To a program that uses it alone the crate promises that 4,096 bytes that it makes have each field exactly where the
//! standard's layout has it and zeroes elsewhere, and are read as that value again.
#![tactic(auto)]

mod bytes;
mod controller;
mod namespace;

pub use bytes::Length;
pub use controller::{IdController, own_controller};
pub use namespace::{IdNamespace, own_namespace};
