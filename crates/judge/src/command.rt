// Commands as they are fetched and done.
ghost use Rattle.std.specs.Prelude.{◌≡◌, ◌≤◌};
ghost use Rattle.nvm_model.specs.Piece.{pieces_left};
ghost use Rattle.nvm_cmd.specs.Answer.{command_of, job_of};
ghost use Rattle.judge.specs.Lane.{IsNumbered};

use nvm_cmd::{Checked, Job, piece_count};
use nvm_model::{Command, Work};
use nvm_values::Status;

/// The fetched command that an answer of the checks stands for.
pub(crate) fn command_of(cid: u16, checked: &Checked) -> Command
    ensures { result ≡ command_of cid checked.now }
{
    match *checked {
        Checked::Refused(status) => Command {
            cid,
            status,
            work: None,
        },
        Checked::Run(job) => Command {
            cid: job.cid,
            status: Status::SUCCESS,
            work: Some(Work {
                op: job.op,
                span: job.span,
                pages: job.pages,
                done: 0,
            }),
        },
    }
}

/// A command's work, as its job.
pub(crate) fn job_of(cid: u16, work: &Work) -> Job
    ensures { result ≡ job_of cid work.now }
{
    Job {
        op: work.op,
        cid,
        span: work.span,
        pages: work.pages,
    }
}

/// How many pieces of a command aren't done.
pub(crate) fn pieces_left(command: &Command, shelf: u32) -> u32
    requires shelf { 1 ≤ shelf }
    requires numbered { IsNumbered command.now }
    ensures { result ≡ pieces_left shelf command.now }
{
    match command.work {
        None => 0,
        Some(work) => piece_count(&job_of(command.cid, &work), shelf).saturating_sub(work.done),
    }
}
