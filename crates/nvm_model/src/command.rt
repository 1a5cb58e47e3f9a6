use mig_base::Span;
use nvm_values::{Op, Status};

/// The data pages of a command, in the order of its data: the first `used` numbers of `list`, and 0 in the places after.
#[derive(Clone, Copy, Debug, PartialEq, Eq)]
pub struct Pages {
    pub list: [u16; 8],
    pub used: u8,
}

/// What a command that passed its checks has to do, and how many of its pieces are done.
#[derive(Clone, Copy, Debug, PartialEq, Eq)]
pub struct Work {
    pub op: Op,
    pub span: Span,
    pub pages: Pages,
    pub done: u32,
}

/// A command that was fetched and isn't posted: its identifier, its status so far, and its work, if it has any.
#[derive(Clone, Copy, Debug, PartialEq, Eq)]
pub struct Command {
    pub cid: u16,
    pub status: Status,
    pub work: Option<Work>,
}

/// A completion as it was posted. `head` is the submission queue's head then, `phase` the phase tag.
#[derive(Clone, Copy, Debug, PartialEq, Eq)]
pub struct Completion {
    pub cid: u16,
    pub status: Status,
    pub head: u32,
    pub phase: bool,
}

/// How a piece of a command ended: done whole, stopped by a failed call of the medium at block `at` of the piece, or,
/// for a Compare, at the first block that differs.
#[derive(Clone, Copy, Debug, PartialEq, Eq)]
pub enum Outcome {
    Done,
    Faulted { at: u32 },
    Differs { at: u32 },
}
