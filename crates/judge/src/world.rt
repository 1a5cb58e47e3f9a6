// The world of a transcript.
ghost use Rattle.std.specs.Prelude.{◌≡◌, ◌↔◌, IfNone, IfOk, IfSome, IsTrue};
ghost use Rattle.nvm_model.specs.declared.script.Script.{Script as TheScript};
ghost use Rattle.nvm_model.specs.Event.{One, lane_number};
ghost use Rattle.nvm_model.specs.History.{Complete};
ghost use Rattle.nvm_model.specs.ScriptText.{IsScript};
ghost use Rattle.nvm_model.specs.World.{start_world};
ghost use Rattle.judge.specs.Decides.{Decides};
ghost use Rattle.judge.specs.Verdict.{zeroed};
ghost use Rattle.judge.specs.World.{IsWorldOf, world_of};

use crate::lane::JudgedLane;
use crate::replay::Replay;
use mig_base::{LaneNo, OutOfMemory};
use nvm_model::{Line, Script};
use std::alloc::Global;

/// A namespace, and lanes, that of lane 1 first.
#[derive(Drop)]
pub(crate) struct JudgedWorld {
    pub namespace: Replay,
    pub lanes: Vec<JudgedLane>,
}

impl JudgedWorld {
    /// The world of a script before its first event. All the memory that its events need is taken.
    ///
    /// # Errors
    ///
    /// `OutOfMemory` where there is no memory for it.
    pub(crate) fn make(alloc: Global, script: &Script) -> Result<JudgedWorld, OutOfMemory>
        requires { IsScript script.now }
        ensures of { IfOk result (IsWorldOf script.now) }
        ensures new { IfOk result (λ w. world_of w ≡ start_world script.now.head (zeroed script.now.head)) }
    {
        let mut lanes = Vec::with_capacity(alloc, usize::from(script.head.lanes))?;
        'lanes: for place in 0..script.head.lanes {
            let lane = LaneNo::new(place + 1).unwrap();
            lanes.push_reserved(JudgedLane::make(alloc, script, lane)?);
        }
        Ok(JudgedWorld {
            namespace: Replay::make(alloc, script.head.blocks)?,
            lanes,
        })
    }

    /// Does an event, if it is legal: whether it is. Where it isn't, what became of the world isn't known.
    pub(crate) fn step(&mut self, event: &Line) -> bool
        requires of { (s : TheScript) × IsWorldOf s self.old }
        ensures step { (s : TheScript) → IsWorldOf s self.old → Decides result (One s (world_of self.old) event.now) (world_of self.new) }
        ensures of { (s : TheScript) → IsWorldOf s self.old → IsWorldOf s self.new }
    {
        let Some(lane) = lane_of(event) else {
            return false;
        };
        let place = usize::from(lane.get()) - 1;
        if place >= self.lanes.len() {
            return false;
        }
        let lane = &mut self.lanes[place];
        lane.step(event, &mut self.namespace)
    }

    /// Whether each guest did its acts, and no command of its is under way.
    pub(crate) fn is_complete(&self) -> bool
        requires { (s : TheScript) × IsWorldOf s self.now }
        ensures { (s : TheScript) → IsWorldOf s self.now → IsTrue result ↔ Complete s (world_of self.now) }
    {
        'lanes: for lane in &self.lanes {
            if !lane.is_complete() {
                return false;
            }
        }
        true
    }
}

/// The lane of an event.
fn lane_of(event: &Line) -> Option<LaneNo>
    ensures some { IfSome result (λ lane. lane ≡ lane_number event.now) }
    ensures none { IfNone result (lane_number event.now ≡ 0) }
{
    match *event {
        Line::Act { lane, .. }
        | Line::Reap { lane, .. }
        | Line::Fetch { lane, .. }
        | Line::Piece { lane, .. }
        | Line::Post { lane, .. } => Some(lane),
        Line::Title
        | Line::Ready
        | Line::Migrate
        | Line::Restart
        | Line::Round { .. }
        | Line::Suspend
        | Line::Pause { .. }
        | Line::ResumeTo
        | Line::GiveUp
        | Line::End => None,
    }
}
