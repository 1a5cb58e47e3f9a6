ghost use Rattle.std.specs.Prelude.{◌≡◌, ◌≤◌, All, IfOk, IsTrue};
ghost use Rattle.nvm_model.specs.ScriptText.{IsHead, IsScript};
ghost use Rattle.nvm_model.specs.World.{window_pages};
ghost use Rattle.session.specs.Lanes.{IsNewRun};
ghost use Rattle.session.specs.Place.{AreRunsOf};
ghost use Rattle.session.specs.Sides.{IsDueNow, IsNewSession, IsNext, move_set};

use crate::lane_run::LaneRun;
use crate::order::Order;
use crate::turn::{MOST_EVENTS, are_all_done};
use hall::Plan;
use manager::{Manager, MoveSet};
use mig_base::{LaneNo, OutOfMemory};
use nvm_model::{Head, Line, RunPhase, Script, Side};
use std::alloc::Global;
use std::marker::Model;

mod stages;

/// The most pieces that a command has.
const MOST_PIECES: usize = 64;

/// What goes where the guests go: the script, the guests of its lanes, the order of pieces, the manager of their move, and
/// room for a turn.
#[derive(Drop)]
pub struct Session {
    script: Script,
    // Lane 1 first.
    runs: Vec<LaneRun>,
    order: Order,
    // How many were done.
    turns: u32,
    // Whether the migration was begun.
    tried: bool,
    phase: RunPhase,
    side: Side,
    manager: Manager,
    plan: Plan,
    // The events of a turn.
    events: Vec<Line>,
}

impl Model for Session {
    ghost use Rattle.session.specs.Sides.{SessionState};
    ghost use Rattle.session.specs.Phases.{HasRoom};
    ghost use Rattle.session.specs.Place.{AreRunsOf};

    ghost Value = { SessionState };

    ghost view = { λ s. record {
      script = s.script;
      runs = s.runs.items;
      order = s.order;
      turns = s.turns;
      tried = s.tried;
      phase = s.phase;
      side = s.side;
      manager = s.manager;
    } };

    ghost invariant = { λ s. HasRoom s.script s.plan s.events × AreRunsOf s.script s.runs.items };
}

/// What comes next in a run.
#[derive(Clone, Copy)]
pub enum Next {
    /// A turn.
    Turn,
    /// The migration that the script asks for.
    Move,
    /// The end.
    End,
}

impl Session {
    /// A session of which nothing was done, on the source, with room for the largest turn.
    ///
    /// # Errors
    ///
    /// `OutOfMemory` where there is no memory for it.
    pub fn make(alloc: Global, script: Script) -> Result<Session, OutOfMemory>
        requires { IsScript script }
        ensures { IfOk result (IsNewSession script) }
    {
        let head = &script.head;
        let count = usize::from(head.lanes);
        let order = Order::new(head.mix);
        let manager = Manager::make(alloc, move_set(head))?;
        let plan = Plan::make(alloc, head.lanes, MOST_PIECES * head.burst as usize)?;
        let events = Vec::with_capacity(alloc, MOST_EVENTS * count)?;
        let runs = make_runs(alloc, &script)?;
        Ok(Session {
            script,
            runs,
            order,
            turns: 0,
            tried: false,
            phase: RunPhase::New,
            side: Side::Source,
            manager,
            plan,
            events,
        })
    }

    /// Whether a turn, the migration or the end comes next.
    pub fn next(&self) -> Next
        ensures { IsNext self.now result }
    {
        let complete = are_all_done(&self.runs);
        if is_due(self.tried, self.script.head.migrate, self.turns, complete) {
            return Next::Move;
        }
        if complete {
            return Next::End;
        }
        Next::Turn
    }
}

/// Whether a migration is due: it wasn't tried, and it is asked for before the next turn, or all is done.
fn is_due(tried: bool, migrate: Option<u32>, turns: u32, done: bool) -> bool
    ensures due { IsTrue result → IsDueNow tried migrate turns (IsTrue done) }
    ensures not { IsDueNow tried migrate turns (IsTrue done) → IsTrue result }
{
    match migrate {
        Some(turn) => !tried && (done || u64::from(turns) + 1 == u64::from(turn)),
        None => false,
    }
}

/// What a script asks of a move.
fn move_set(head: &Head) -> MoveSet
    requires { IsHead head.now }
    ensures { result ≡ move_set head.now }
{
    MoveSet {
        blocks: head.blocks,
        ram_pages: window_pages(head),
        slice: head.slice,
        small: head.small,
        pages: head.pages,
        patience: head.patience,
        cells: head.change,
    }
}

/// The window pages of all lanes: two for the queues of each, and its data pages.
pub fn window_pages(head: &Head) -> u32
    requires { head.now.lanes ≤ 8 }
    ensures { result ≡ window_pages head.now }
{
    let sets = &head.sets[..usize::from(head.lanes)];
    let mut pages = 0;
    for set in sets {
        pages += u32::from(set.pages) + 2;
    }
    pages
}

/// The runs of a script's lanes at their start.
fn make_runs(alloc: Global, script: &Script) -> Result<Vec<LaneRun>, OutOfMemory>
    requires { IsScript script.now }
    ensures runs { IfOk result (λ runs. AreRunsOf script.now runs.items) }
    ensures new { IfOk result (λ runs. All (IsNewRun script.now) runs.items) }
{
    let mut runs = Vec::with_capacity(alloc, usize::from(script.head.lanes))?;
    for at in 0..script.head.lanes {
        let lane = LaneNo::new(at + 1).unwrap();
        runs.push_reserved(LaneRun::make(alloc, script, lane)?);
    }
    Ok(runs)
}
