//! The top call: it reads words and a script, and runs the script's guests over the hosts, shows what it asks for, or
//! judges a transcript of it. Its contract is the product's: the transcript of a run is a legal and complete history of
//! one controller over one array of blocks, each medium got the calls of that run and no other, the hosts hold the
//! worlds that it reaches, what is said of a transcript is true of it, and every other answer has its cause.
#![tactic(auto)]

mod checking;
mod file_words;
mod free_gate;
mod hosts;
mod reading;
mod room;
mod showing;
mod status;
mod top;
mod words;

pub use file_words::files;
pub use free_gate::FreeGate;
pub use judge::Fault;
pub use script::Why;
pub use status::Status;
pub use top::nvmigrate;
pub use words::geometry;
