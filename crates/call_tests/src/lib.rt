//! Tests over the public calls of the crates below, a module a subject, since a crate with tests is proved twice: what files
//! under tests/cases can't show, as media, inputs and sinks that fail, traces, and hosts of odd sizes. Nothing stands on it.
#![tactic(auto)]

#[cfg(test)]
mod admin_commands;
#[cfg(test)]
mod commands;
#[cfg(test)]
mod controllers;
#[cfg(test)]
mod cores;
#[cfg(test)]
mod entries;
#[cfg(test)]
mod identify;
#[cfg(test)]
mod managers;
#[cfg(test)]
mod media;
#[cfg(test)]
mod moves;
#[cfg(test)]
mod namespaces;
#[cfg(test)]
mod programs;
#[cfg(test)]
mod queues;
#[cfg(test)]
mod rings;
#[cfg(test)]
mod scripts;
#[cfg(test)]
mod shelves;
#[cfg(test)]
mod stops;
#[cfg(test)]
mod streams;
#[cfg(test)]
mod transcripts;
#[cfg(test)]
mod windows;
