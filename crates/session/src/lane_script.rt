ghost use Rattle.std.specs.Prelude.{◌≡◌, ◌≤◌, IfOk};
ghost use Rattle.nvm_model.specs.World.{acts_of, set_of};

use mig_base::{LaneNo, OutOfMemory};
use nvm_model::{Act, Head, LaneSet, Script};
use std::alloc::{AllocError, Global};

/// What a script says of one lane: its sizes, and its acts in order.
#[derive(Drop)]
pub struct LaneScript {
    pub lane: LaneNo,
    pub set: LaneSet,
    pub acts: Vec<Act>,
}

impl LaneScript {
    ghost use Rattle.std.specs.Prelude.{◌≡◌, ◌≤◌, IfOk};
    ghost use Rattle.nvm_model.specs.ScriptText.{IsScript};
    ghost use Rattle.session.specs.Lanes.{IsLaneOf};

    /// Gathers what the script says of a lane that it has.
    ///
    /// # Errors
    ///
    /// `OutOfMemory` where there is no memory for the acts.
    pub fn make(alloc: Global, script: &Script, lane: LaneNo) -> Result<LaneScript, OutOfMemory>
        requires script { IsScript script.now }
        requires there { (1 ≤ lane) × (lane ≤ script.now.head.lanes) }
        ensures lane { IfOk result (λ ls. ls.lane ≡ lane) }
        ensures made { IfOk result (IsLaneOf script.now) }
    {
        let acts = acts_of(alloc, script, lane.get())?;
        Ok(LaneScript {
            lane,
            set: set_of(&script.head, lane),
            acts,
        })
    }
}

/// The acts of a lane, in the script's order.
fn acts_of(alloc: Global, script: &Script, lane: u8) -> Result<Vec<Act>, AllocError>
    ensures { IfOk result (λ acts. acts.items ≡ acts_of lane script.now.acts) }
{
    script
        .acts
        .list()
        .iter()
        .filter(|a| a.0 == lane)
        .map(|a| a.1)
        .collect(alloc)
}

/// The sizes of a lane.
fn set_of(head: &Head, lane: LaneNo) -> LaneSet
    requires { (1 ≤ lane) × (lane ≤ 8) }
    ensures { result ≡ set_of head.now lane }
{
    head.sets[usize::from(lane.get()) - 1]
}
