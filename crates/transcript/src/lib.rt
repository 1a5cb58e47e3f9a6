//! The lines of a transcript as text. `print_line` makes the one text of a line, with its line feed, and needs no
//! memory; `write_lines` sends each line by itself, or a front of their text and the sink's count of faults rose.
//! `parse_line` reads each such text, and no other.
#![tactic(auto)]

mod guess;
mod parse;
mod print;
mod read;
mod write;

pub use line_buf::LineBuf;
pub use nvm_model::{Line, Outcome};
pub use parse::{NotALine, parse_line};
pub use print::print_line;
pub use write::write_lines;
