ghost use Rattle.std.specs.Prelude.{◌≡◌, ◌<◌, ◌^◌};
ghost use Rattle.nvm_values.specs.Sqe.{slba_of, count_of};
ghost use Rattle.nvm_model.specs.Check.{verdict, fetched_command};
ghost use Rattle.guest_ram.specs.Window.{data_pages};
ghost use Rattle.nvm_cmd.specs.Answer.{IsAnswer, IsRunnable, command_of};
ghost use Rattle.nvm_cmd.specs.Check.{HasPassed, late_verdict};

use crate::early::decide_early;
use crate::{Checked, Job};
use guest_ram::Window;
use mig_base::Span;
use nvm_model::Pages;
use nvm_values::{Op, Sqe, Status};

const NO_PAGES: Pages = Pages {
    list: [0; 8],
    used: 0,
};

/// Checks an entry at its fetch, over a namespace of `blocks` blocks and the lane's window. `busy` holds the identifiers
/// of the lane's commands that are fetched and aren't posted. The first test that fails decides the status; the pages
/// come last, so a command costs no more of them than it needs.
///
/// A Flush that passes the tests before it ends here too: it has no piece, and is `Refused(Status::SUCCESS)`.
pub fn check(e: &Sqe, busy: &[u16], blocks: u32, w: &Window) -> Checked
    ensures answer { IsAnswer (verdict blocks w.now.lane (data_pages w.now) busy.now e.now) w.now.lane (data_pages w.now) e.now result }
    ensures command { command_of e.now.cid result
        ≡ fetched_command (verdict blocks w.now.lane (data_pages w.now) busy.now e.now) w.now.lane (data_pages w.now) e.now }
    ensures runnable { IsRunnable blocks w.now result }
{
    match decide_early(blocks, busy, e) {
        Some(status) => Checked::Refused(status),
        None => check_pages(blocks, e, w),
    }
}

/// The answer to an entry that passed the tests that need no page.
fn check_pages(blocks: u32, e: &Sqe, w: &Window) -> Checked
    requires { HasPassed blocks e.now }
    ensures answer { IsAnswer (late_verdict w.now.lane (data_pages w.now) e.now) w.now.lane (data_pages w.now) e.now result }
    ensures runnable { IsRunnable blocks w.now result }
{
    match Op::of(e.opcode) {
        None => unreachable!(),
        Some(op) if op.moves_data() => match w.span_of(e.prp1, e.prp2, e.count()) {
            Err(_) => Checked::Refused(Status::INVALID_FIELD),
            Ok(pages) => Checked::Run(job(op, pages, e)),
        },
        Some(op) => Checked::Run(job(op, NO_PAGES, e)),
    }
}

fn job(op: Op, pages: Pages, e: &Sqe) -> Job
    requires { slba_of e.now < 2 ^ 32 }
    ensures { result ≡ record { op = op; cid = e.now.cid; span = record { first = slba_of e.now; count = count_of e.now }; pages = pages } }
{
    Job {
        op,
        cid: e.cid,
        span: Span {
            first: e.slba() as u32,
            count: e.count(),
        },
        pages,
    }
}
