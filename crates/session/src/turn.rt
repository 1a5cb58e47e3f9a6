// One turn on one thread: a list of events, whose lines are written after it.
ghost use Rattle.std.specs.Prelude.{◌<◌, All, IsTrue};
ghost use Rattle.nvm_model.specs.Run.{Here};
ghost use Rattle.session.specs.Lanes.{IsComplete};
ghost use Rattle.session.specs.Phases.{HasRoom};
ghost use Rattle.session.specs.Place.{DoesTurn, IsReady, StandsOn, machine, total_work};
ghost use Rattle.session.specs.Served.{Served};

use crate::pieces::{clear_shelves, do_pieces};
use crate::plan::plan_all;
use crate::posts::post_all;
use crate::{LaneRun, Order, Place};
use hall::Plan;
use mig_medium::Medium;
use nvm_model::{Line, Script};

/// The most events that one turn of a lane can have, for the largest queues, bursts and numbers of shelves.
pub const MOST_EVENTS: usize = 4608;

/// Whether every guest has done its acts and no command of its is under way.
pub(crate) fn are_all_done(runs: &Vec<LaneRun>) -> bool
    ensures done { IsTrue result → All IsComplete runs.now.items }
    ensures not { All IsComplete runs.now.items → IsTrue result }
{
    for run in runs {
        if !run.is_complete() {
            return false;
        }
    }
    true
}

/// Does a turn of lanes that aren't all complete: each guest reaps and acts and the controller fetches; the pieces are
/// done; the completions are posted. The events stand in their room then.
pub(crate) fn do_turn<M: Medium>(
    script: &Script,
    runs: &mut Vec<LaneRun>,
    order: &mut Order,
    plan: &mut Plan,
    events: &mut Vec<Line>,
    place: &mut Place<M>,
)
    requires ready { IsReady script.now (machine runs.old.items order.old place.old) }
    requires room { HasRoom script.now plan.old events.old }
    requires due { All IsComplete runs.old.items → ⊥ }
    ensures turn { (h : Here M)
        → StandsOn script.now (machine runs.old.items order.old place.old) h
        → DoesTurn M.state M.moves script.now h events.new.items (machine runs.new.items order.new place.new) }
    ensures ready { IsReady script.now (machine runs.new.items order.new place.new) }
    ensures served { Served M.state M.moves place.old place.new }
    ensures less { total_work 1 runs.new.items place.new.controller
        < total_work 1 runs.old.items place.old.controller }
    ensures room { HasRoom script.now plan.new events.new }
{
    events.clear();
    plan.clear();
    plan_all(script, runs, plan, events, place);
    clear_shelves(script, plan, place);
    do_pieces(script, runs, order, plan, events, place);
    post_all(script, runs, plan, events, place);
}
