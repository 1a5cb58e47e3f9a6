// The posts of a turn: for each lane in order, the completions of its fetched commands.
ghost use Rattle.std.specs.Prelude.{◌≡◌, ◌+◌, ◌*◌, ◌≤◌, ◌++◌, List, length, map, vec_len, vec_capacity};
ghost use Rattle.nvm_model.specs.ScriptText.{IsHead};
ghost use Rattle.nvm_model.specs.Turn.{InLanes, PostsAll};
ghost use Rattle.nvm_model.specs.World.{Lane};
ghost use Rattle.ctl_state.specs.Controller.{pair_of};
ghost use Rattle.controller.specs.Pair.{IsSameButPair, post_line};
ghost use Rattle.turns.specs.Parts.{Leads};
ghost use Rattle.session.specs.LaneParts.{HasMore, IsFree, IsSeat, seat_of};
ghost use Rattle.session.specs.Lanes.{Stands};
ghost use Rattle.session.specs.Phases.{AreDone, Fit, HasPlan};
ghost use Rattle.session.specs.Place.{AreQuiet, AreUndone, StandsFor};
ghost use Rattle.session.specs.Seats.{IsSameButSeats};
ghost use Rattle.session.specs.Work.{MayPost};

use crate::{LaneRun, Place};
use controller::Controller;
use guest_ram::Window;
use hall::Plan;
use mig_base::LaneNo;
use mig_medium::Medium;
use nvm_model::{Line, Script};
use nvm_values::Status;

/// Posts the completions of all fetched commands, whose pieces are all done.
pub(crate) fn post_all<M: Medium>(
    script: &Script,
    runs: &mut Vec<LaneRun>,
    plan: &Plan,
    events: &mut Vec<Line>,
    place: &mut Place<M>,
)
    requires has { HasPlan script.now runs.old.items plan.now place.old × AreDone script.now runs.old.items plan.now }
    requires room { vec_len events.old + 64 * script.now.head.lanes ≤ vec_capacity events.old }
    ensures leads { (lanes : List Lane)
        → StandsFor script.now runs.old.items place.old.controller place.old.windows lanes
        → Leads (InLanes (PostsAll script.now) 1)
        (StandsFor script.now runs.new.items place.new.controller place.new.windows)
        lanes events.old.items events.new.items }
    ensures rests { Fit script.now runs.new.items place.new × AreQuiet place.new.controller.pairs
        × AreUndone runs.new.items }
    ensures kept { IsSameButSeats place.old place.new }
    ensures more { HasMore (64 * script.now.head.lanes) events.old events.new }
{
    for at in 0..usize::from(script.head.lanes) {
        place.post(script, &mut runs[at], events);
    }
}

/// Posts the completions of a lane's fetched commands.
pub(crate) fn post_lane(
    script: &Script,
    run: &mut LaneRun,
    controller: &mut Controller,
    window: &mut Window,
    events: &mut Vec<Line>,
)
    requires head { IsHead script.now.head }
    requires seat { IsSeat script.now run.old.script.lane (seat_of run.old controller.old window.old) }
    requires may { MayPost script.now run.old.script.lane run.old (pair_of controller.old run.old.script.lane) }
    requires room { vec_len events.old + 64 ≤ vec_capacity events.old }
    ensures leads { (l : Lane)
        → Stands script.now run.old.script.lane run.old (pair_of controller.old run.old.script.lane) window.old l
        → Leads (PostsAll script.now run.old.script.lane)
        (Stands script.now run.old.script.lane run.new (pair_of controller.new run.old.script.lane) window.new)
        l events.old.items events.new.items }
    ensures rests { IsFree script.now run.old.script.lane (seat_of run.new controller.new window.new) }
    ensures others { IsSameButPair run.old.script.lane controller.old controller.new }
    ensures more { HasMore 64 events.old events.new }
{
    let lane = run.script.lane;
    controller.finish_turn(lane, run.results.as_slice(), window);
    run.results.clear();
    push_posts(lane, controller.posted(lane), events);
}

/// Tells the completions that were posted.
fn push_posts(lane: LaneNo, posted: &[(u16, Status)], events: &mut Vec<Line>)
    requires room { vec_len events.old + length posted.now ≤ vec_capacity events.old }
    ensures events { events.new.items ≡ events.old.items ++ map (post_line lane) posted.now }
    ensures more { HasMore (length posted.now) events.old events.new }
{
    for told in posted {
        events.push_reserved(Line::Post {
            lane,
            cid: told.0,
            status: told.1,
        });
    }
}
