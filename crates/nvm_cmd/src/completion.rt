ghost use Rattle.std.specs.Prelude.{◌≡◌, false};
ghost use Rattle.nvm_model.specs.Piece.{join_status, outcome_status};

use mig_base::LaneNo;
use nvm_model::{Outcome, PieceResult};
use nvm_values::{Cqe, Op, Status};

/// The status of a command after one more of its pieces: that of its first piece that failed, and Success while none did.
pub fn join_status(so_far: Status, op: Op, r: &PieceResult) -> Status
    ensures { result ≡ join_status so_far op r.now.outcome }
{
    if so_far.sct == 0 && so_far.sc == 0 {
        outcome_status(op, r.outcome)
    } else {
        so_far
    }
}

/// The status that a piece's outcome gives.
fn outcome_status(op: Op, outcome: Outcome) -> Status
    ensures { result ≡ outcome_status op outcome }
{
    match (outcome, op) {
        (Outcome::Done, _) => Status::SUCCESS,
        (Outcome::Differs { .. }, _) => Status::COMPARE_FAILURE,
        (Outcome::Faulted { .. }, Op::Write | Op::WriteZeroes) => Status::WRITE_FAULT,
        (Outcome::Faulted { .. }, Op::Read | Op::Compare | Op::Verify) => Status::READ_ERROR,
        (Outcome::Faulted { .. }, Op::Flush) => Status::SUCCESS,
    }
}

/// The completion of a lane's command, with the submission queue's head. Its phase is false until a completion queue sets
/// it.
pub fn finish(job_cid: u16, lane: LaneNo, status: Status, head: u16) -> Cqe
    ensures { result ≡ record { dw0 = 0; dw1 = 0; sqhd = head; sqid = lane; cid = job_cid; phase = false; status = status; mid = 0; more = false; dnr = false } }
{
    Cqe {
        dw0: 0,
        dw1: 0,
        sqhd: head,
        sqid: u16::from(lane.get()),
        cid: job_cid,
        phase: false,
        status,
        mid: 0,
        more: false,
        dnr: false,
    }
}
