ghost use Rattle.std.specs.Prelude.{◌≡◌, ◌<◌, ◌≤◌, [], IfOk, length, replicate};
ghost use Rattle.hall.specs.Plan.{PlanState, pieces_of, with_piece};

use crate::Piece;
use mig_base::{LaneNo, OutOfMemory};
use std::alloc::Global;
use std::marker::Model;

/// The pieces of each lane of a turn, in their order.
#[derive(Drop)]
pub struct Plan {
    // Those of lane 1 first.
    lanes: Vec<Vec<Piece>>,
    room: usize,
}

impl Model for Plan {
    ghost use Rattle.std.specs.Prelude.{map};
    ghost use Rattle.hall.specs.Plan.{PlanState, HaveRoom};

    ghost Value = { PlanState };

    ghost view = { λ p. record { lanes = map (λ v. v.items) p.lanes.items; room = p.room } };

    ghost invariant = { λ p. HaveRoom p.room p.lanes.items };
}

impl Plan {
    /// An empty plan for lanes from 1 to 8, with room for so many pieces of each.
    ///
    /// # Errors
    ///
    /// `OutOfMemory` where there is no memory for them.
    pub fn make(alloc: Global, lanes: u8, pieces: usize) -> Result<Plan, OutOfMemory>
        requires some { 1 ≤ lanes }
        requires few { lanes ≤ 8 }
        ensures { IfOk result (λ p. p ≡ record { lanes = replicate lanes []; room = pieces }) }
    {
        let mut all = Vec::with_capacity(alloc, usize::from(lanes))?;
        for _ in 0..lanes {
            all.push_reserved(Vec::with_capacity(alloc, pieces)?);
        }
        Ok(Plan {
            lanes: all,
            room: pieces,
        })
    }

    /// Empties every lane's list, and keeps the room.
    pub fn clear(&mut self)
        ensures { self.new ≡ record self.old { lanes = replicate (length self.old.lanes) [] } }
    {
        for pieces in self.lanes.iter_mut() {
            pieces.clear();
        }
    }

    /// Puts a piece behind those of its lane, which is one of the plan and has room for it.
    pub fn push(&mut self, p: Piece)
        requires lane { p.lane ≤ length self.old.lanes }
        requires room { length (pieces_of self.old p.lane) < self.old.room }
        ensures { self.new ≡ with_piece p self.old }
    {
        let pieces = &mut self.lanes[usize::from(p.lane.get()) - 1];
        pieces.push_reserved(p);
    }

    /// The pieces of a lane, which is one of the plan, in the order in which they were pushed.
    pub fn pieces(&self, lane: LaneNo) -> &[Piece]
        requires { lane ≤ length self.now.lanes }
        ensures { result.now ≡ pieces_of self.now lane }
    {
        self.lanes[usize::from(lane.get()) - 1].as_slice()
    }
}
