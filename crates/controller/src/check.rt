// The check of an entry at its fetch, and the command that it makes.
ghost use Rattle.std.specs.Prelude.{◌≡◌, ◌≤◌, length};
ghost use Rattle.nvm_model.specs.Check.{checked_command, identifiers};
ghost use Rattle.guest_ram.specs.Window.{data_pages};
ghost use Rattle.nvm_cmd.specs.Answer.{command_of};
ghost use Rattle.controller.specs.Pair.{IsFetched};

use arrayvec::ArrayVec;
use guest_ram::Window;
use nvm_cmd::Checked;
use nvm_model::{Command, Work};
use nvm_values::{Sqe, Status};

/// The command that a fetch of the entry makes, beside at most 64 running ones.
pub(crate) fn check(blocks: u32, running: &[Command], window: &Window, e: &Sqe) -> Command
    requires { length running.now ≤ 64 }
    ensures value { result ≡ checked_command blocks window.now.lane (data_pages window.now) running.now e.now }
    ensures fetched { IsFetched blocks (length (data_pages window.now)) result }
{
    let busy = identifiers(running);
    command_of(e.cid, &nvm_cmd::check(e, busy.as_slice(), blocks, window))
}

/// The identifiers of commands.
fn identifiers(running: &[Command]) -> ArrayVec<u16, 64>
    requires { length running.now ≤ 64 }
    ensures { result.items ≡ identifiers running.now }
{
    let mut busy = ArrayVec::new();
    for command in running {
        busy.try_push(command.cid).unwrap();
    }
    busy
}

/// The fetched command that an answer of the checks stands for.
fn command_of(cid: u16, checked: &Checked) -> Command
    ensures { result ≡ command_of cid checked.now }
{
    match *checked {
        Checked::Refused(status) => Command {
            cid,
            status,
            work: None,
        },
        Checked::Run(job) => Command {
            cid: job.cid,
            status: Status::SUCCESS,
            work: Some(Work {
                op: job.op,
                span: job.span,
                pages: job.pages,
                done: 0,
            }),
        },
    }
}
