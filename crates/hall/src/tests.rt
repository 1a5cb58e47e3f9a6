ghost use Rattle.std.specs.Prelude.{◌≡◌};

use super::*;
use mig_base::{LaneNo, Span};
use nvm_model::Pages;
use nvm_values::Op;
use std::process::Abort;
use std::test::Fail;

/// The piece of a Verify of one block.
fn piece(lane: LaneNo, first: u32) -> Piece
    ensures { result.lane ≡ lane }
{
    Piece {
        lane,
        cid: 1,
        op: Op::Verify,
        span: Span { first, count: 1 },
        at: 0,
        pages: Pages {
            list: [0; 8],
            used: 0,
        },
    }
}

/// The first blocks of a lane's pieces are these.
fn are(pieces: &[Piece], firsts: &[u32]) -> bool {
    pieces
        .iter()
        .map(|p| p.span.first)
        .eq(firsts.iter().copied())
}

#[test]
fn keeps_each_lane_in_order(rt: HostRuntime) -> Result<(), Fail> {
    let one = LaneNo::new(1).ok_or("lane 1")?;
    let two = LaneNo::new(2).ok_or("lane 2")?;
    let mut plan = Plan::make(rt.alloc(), 2, 2).ok().ok_or("no plan")?;
    plan.push(piece(two, 7));
    plan.push(piece(one, 3));
    plan.push(piece(two, 5));
    assert!(rt; are(plan.pieces(one), &[3]));
    assert!(rt; are(plan.pieces(two), &[7, 5]));
    plan.clear();
    assert!(rt; plan.pieces(one).is_empty() && plan.pieces(two).is_empty());
    plan.push(piece(one, 4));
    assert!(rt; are(plan.pieces(one), &[4]));
    Ok(())
}
