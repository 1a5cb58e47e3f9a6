// A lane of a transcript.
ghost use Rattle.std.specs.Prelude.{◌≡◌, ◌≤◌, ◌↔◌, ℕ, IfOk, IsTrue, List, length};
ghost use Rattle.nvm_model.specs.declared.script.Script.{Script as TheScript};
ghost use Rattle.nvm_model.specs.Event.{LaneStep, lane_number};
ghost use Rattle.nvm_model.specs.History.{IsLaneComplete};
ghost use Rattle.nvm_model.specs.ScriptText.{IsScript};
ghost use Rattle.nvm_model.specs.World.{IsQuiet, Lane, acts_of, new_lane, set_of};
ghost use Rattle.judge.specs.Decides.{Decides};
ghost use Rattle.judge.specs.Lane.{IsLaneOf, IsSameScript, IsSound, model_of};

mod acts;
mod queues;
mod work;

use crate::replay::Replay;
use guest_ram::Window;
use mig_base::{LaneNo, OutOfMemory};
use nvm_model::{Act, Command, Completion, Head, LaneSet, Line, Script};
use nvm_values::Sqe;
use std::alloc::{AllocError, Global};
use work::Told;

/// A lane, with all that its guest and its controller ever did. It has room for an entry, a command and a completion for
/// each act of the script.
#[derive(Drop)]
pub(crate) struct JudgedLane {
    pub lane: LaneNo,
    pub set: LaneSet,
    /// The blocks of the namespace, and of a shelf.
    pub blocks: u32,
    pub shelf: u32,
    /// Its data pages. The ring pages have no part in it.
    pub window: Window,
    pub acts: Vec<Act>,
    /// How many of its acts are done.
    pub done: usize,
    pub submitted: Vec<Sqe>,
    /// Those that were fetched, and their identifiers. The first of them are posted.
    pub commands: Vec<Command>,
    pub cids: Vec<u16>,
    pub posted: Vec<Completion>,
    pub reaped: usize,
}

impl JudgedLane {
    /// A lane of the script that it has, before anything was done.
    ///
    /// # Errors
    ///
    /// `OutOfMemory` where there is no memory for it.
    pub(crate) fn make(
        alloc: Global,
        script: &Script,
        lane: LaneNo,
    ) -> Result<JudgedLane, OutOfMemory>
        requires script { IsScript script.now }
        requires there { lane ≤ script.now.head.lanes }
        ensures of { IfOk result (IsLaneOf script.now) }
        ensures number { IfOk result (λ j. j.lane ≡ lane) }
        ensures sound { IfOk result IsSound }
        ensures new { IfOk result (λ j. model_of j ≡ new_lane (set_of script.now.head lane).pages) }
    {
        let set = set_of(&script.head, lane);
        let acts = acts_of(alloc, script, lane.get())?;
        let room = acts.len();
        Ok(JudgedLane {
            lane,
            set,
            blocks: script.head.blocks,
            shelf: script.head.shelf,
            window: Window::make(alloc, lane, set.pages)?,
            acts,
            done: 0,
            submitted: Vec::with_capacity(alloc, room)?,
            commands: Vec::with_capacity(alloc, room)?,
            cids: Vec::with_capacity(alloc, room)?,
            posted: Vec::with_capacity(alloc, room)?,
            reaped: 0,
        })
    }

    /// Does an event of this lane, if it is legal: whether it is.
    pub(crate) fn step(&mut self, event: &Line, namespace: &mut Replay) -> bool
        requires namespace { length namespace.old.blocks ≡ self.old.blocks }
        requires sound { IsSound self.old }
        ensures step { (s : TheScript) → IsLaneOf s self.old → lane_number event.now ≡ self.old.lane
            → Decides result (λ (x : List (List ℕ) × Lane). LaneStep s event.now namespace.old.blocks (model_of self.old) x.0 x.1) (namespace.new.blocks, model_of self.new) }
        ensures same { IsSameScript self.old self.new }
        ensures sound { IsSound self.new }
        ensures size { length namespace.new.blocks ≡ length namespace.old.blocks }
    {
        match *event {
            Line::Act { n, .. } => self.act(n),
            Line::Reap {
                cid,
                status,
                head,
                phase,
                ..
            } => self.reap(&Completion {
                cid,
                status,
                head,
                phase,
            }),
            Line::Fetch {
                cid,
                status,
                pieces,
                ..
            } => self.fetch(cid, status, pieces),
            Line::Piece {
                cid,
                first,
                count,
                outcome,
                digest,
                ..
            } => {
                let told = Told {
                    cid,
                    first,
                    count,
                    outcome,
                    digest,
                };
                self.piece(&told, namespace)
            }
            Line::Post { cid, status, .. } => self.post(cid, status),
            Line::Title
            | Line::Ready
            | Line::Migrate
            | Line::Restart
            | Line::Round { .. }
            | Line::Suspend
            | Line::Pause { .. }
            | Line::ResumeTo
            | Line::GiveUp
            | Line::End => false,
        }
    }

    /// The commands that were fetched and aren't posted, oldest first.
    fn running(&self) -> &[Command]
        requires { IsSound self.now }
        ensures { result.now ≡ (model_of self.now).running }
    {
        &self.commands[self.posted.len()..]
    }

    /// Whether its guest did its acts, and no command of its is under way.
    pub(crate) fn is_complete(&self) -> bool
        requires { IsSound self.now }
        ensures { (s : TheScript) → IsLaneOf s self.now → IsTrue result ↔ IsLaneComplete s self.now.lane (model_of self.now) }
    {
        self.done == self.acts.len() && self.is_quiet()
    }

    /// Whether nothing is submitted and not fetched, fetched and not posted, or posted and not reaped: a completion of
    /// each entry was reaped.
    fn is_quiet(&self) -> bool
        requires { IsSound self.now }
        ensures { IsTrue result ↔ IsQuiet (model_of self.now) }
    {
        self.reaped == self.submitted.len()
    }
}

/// The acts of a lane, in the script's order.
fn acts_of(alloc: Global, script: &Script, lane: u8) -> Result<Vec<Act>, AllocError>
    ensures { IfOk result (λ acts. acts.items ≡ acts_of lane script.now.acts) }
{
    script
        .acts
        .list()
        .iter()
        .filter(|a| a.0 == lane)
        .map(|a| a.1)
        .collect(alloc)
}

/// The sizes of a lane.
fn set_of(head: &Head, lane: LaneNo) -> LaneSet
    ensures { result ≡ set_of head.now lane }
{
    head.sets[usize::from(lane.get()) - 1]
}
