//! Commands: the cut at the last numbers of 32 bits, and the status that pieces leave.

use mig_base::{LaneNo, Span};
use nvm_cmd::{Job, PieceResult, finish, join_status, piece, piece_count, pieces_cover};
use nvm_model::{Outcome, Pages};
use nvm_values::{Op, Status};
use std::test::Fail;

/// The cut of a range that ends where numbers of 32 bits do.
#[test]
fn cuts(rt: HostRuntime) -> Result<(), Fail> {
    let lane = LaneNo::new(3).ok_or("lane 3")?;
    let span = Span {
        first: 4_294_967_290,
        count: 6,
    };
    let job = Job {
        op: Op::Read,
        cid: 7,
        span,
        pages: Pages {
            list: [3, 1, 0, 0, 0, 0, 0, 0],
            used: 2,
        },
    };
    assert!(rt; piece_count(&job, 8) == 1);
    let made = piece(&job, lane, 8, 0);
    assert!(rt; made.lane == lane && made.cid == 7 && made.op == Op::Read);
    assert!(rt; made.span == span && made.at == 0 && made.pages == job.pages);
    pieces_cover();
    Ok(())
}

/// A status so far, the next piece's operation and outcome, and the status then.
const JOINS: [(Status, Op, Outcome, Status); 9] = [
    (Status::SUCCESS, Op::Write, Outcome::Done, Status::SUCCESS),
    (
        Status::SUCCESS,
        Op::Write,
        Outcome::Faulted { at: 0 },
        Status::WRITE_FAULT,
    ),
    (
        Status::SUCCESS,
        Op::WriteZeroes,
        Outcome::Faulted { at: 1 },
        Status::WRITE_FAULT,
    ),
    (
        Status::SUCCESS,
        Op::Read,
        Outcome::Faulted { at: 0 },
        Status::READ_ERROR,
    ),
    (
        Status::SUCCESS,
        Op::Verify,
        Outcome::Faulted { at: 0 },
        Status::READ_ERROR,
    ),
    (
        Status::SUCCESS,
        Op::Compare,
        Outcome::Faulted { at: 2 },
        Status::READ_ERROR,
    ),
    (
        Status::SUCCESS,
        Op::Compare,
        Outcome::Differs { at: 2 },
        Status::COMPARE_FAILURE,
    ),
    (
        Status::COMPARE_FAILURE,
        Op::Compare,
        Outcome::Faulted { at: 0 },
        Status::COMPARE_FAILURE,
    ),
    (
        Status::READ_ERROR,
        Op::Compare,
        Outcome::Done,
        Status::READ_ERROR,
    ),
];

#[test]
fn ends(rt: HostRuntime) -> Result<(), Fail> {
    for (so_far, op, outcome, want) in &JOINS {
        let result = PieceResult {
            outcome: *outcome,
            digest: [0; 32],
        };
        assert!(rt;
            join_status(*so_far, *op, &result) == *want,
            "{op:?} {outcome:?}"
        );
    }
    let lane = LaneNo::new(2).ok_or("lane 2")?;
    let cqe = finish(7, lane, Status::READ_ERROR, 3);
    assert!(rt; (cqe.cid, cqe.sqid, cqe.sqhd, cqe.status) == (7, 2, 3, Status::READ_ERROR));
    assert!(rt; (cqe.dw0, cqe.dw1, cqe.mid) == (0, 0, 0));
    assert!(rt; (cqe.phase, cqe.more, cqe.dnr) == (false, false, false));
    Ok(())
}
