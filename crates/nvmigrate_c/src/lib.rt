//! The proved parts for C programs, which `include/nvmigrate.h` declares: entries and their bytes, a queue pair's
//! four ends, admin commands, the image of a controller's state in parts, a change queue over cells that C owns, and
//! the judge of transcripts. Each export tests what C keeps, rebuilds the library's own value of it, calls that, and
//! says again what the call says. None requires anything but that its pointers are those of Rust's references.
#![tactic(auto)]

mod admin;
mod code;
mod completion;
mod entry;
mod judging;
mod layout;
mod parts;
mod queue;
mod ring;
mod version;
