ghost use Rattle.std.specs.Prelude.{◌≤◌, ◌↔◌, IfOk, IsTrue};
ghost use Rattle.nvm_model.specs.ScriptText.{IsScript};
ghost use Rattle.session.specs.Lanes.{IsComplete, IsNewRun, IsRunOf};

use crate::LaneScript;
use lanes::Guest;
use mig_base::{LaneNo, OutOfMemory};
use nvm_model::{PieceResult, Script};
use std::alloc::Global;

/// The run of one lane: what the script says of it, its guest, and the results of this turn's pieces.
#[derive(Drop)]
pub struct LaneRun {
    pub script: LaneScript,
    pub guest: Guest,
    /// How many acts the guest has done.
    pub acts_done: u32,
    /// Those of the pieces that were done, in the plan's order.
    pub results: Vec<PieceResult>,
}

impl LaneRun {
    /// A lane's run at its start.
    ///
    /// # Errors
    ///
    /// `OutOfMemory` where there is no memory for it.
    pub fn make(alloc: Global, script: &Script, lane: LaneNo) -> Result<LaneRun, OutOfMemory>
        requires script { IsScript script.now }
        requires there { (1 ≤ lane) × (lane ≤ script.now.head.lanes) }
        ensures run { IfOk result (IsRunOf script.now lane) }
        ensures new { IfOk result (IsNewRun script.now) }
    {
        let own = LaneScript::make(alloc, script, lane)?;
        let guest = Guest::new(lane, own.set);
        let results = Vec::with_capacity(alloc, 64 * script.head.burst as usize)?;
        Ok(LaneRun {
            script: own,
            guest,
            acts_done: 0,
            results,
        })
    }

    /// Whether the guest has done its acts and no command of its is under way.
    pub fn is_complete(&self) -> bool
        ensures { IsTrue result ↔ IsComplete self.now }
    {
        self.acts_done as usize == self.script.acts.len() && self.guest.is_quiet()
    }
}
