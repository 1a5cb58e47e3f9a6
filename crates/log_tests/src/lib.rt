//! Tests of the shared change log on one thread and on several. Nothing stands on it.
#![tactic(auto)]

#[cfg(test)]
mod entries;
#[cfg(test)]
mod rows;
#[cfg(test)]
mod threads;
