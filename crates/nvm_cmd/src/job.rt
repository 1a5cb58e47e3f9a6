use mig_base::Span;
use nvm_model::Pages;
use nvm_values::{Op, Status};

/// The work of a command that passed its checks: an operation other than Flush on from 1 to 64 blocks, and the data
/// pages that were found at its fetch, none for an operation that moves no data.
#[derive(Clone, Copy, Debug, PartialEq, Eq)]
pub struct Job {
    pub op: Op,
    pub cid: u16,
    pub span: Span,
    pub pages: Pages,
}

/// What the checks of an entry say.
#[derive(Clone, Copy, Debug, PartialEq, Eq)]
pub enum Checked {
    /// The command has no piece and ends with this status. A Flush is such a command, with `Status::SUCCESS`.
    Refused(Status),
    /// The command passed.
    Run(Job),
}
