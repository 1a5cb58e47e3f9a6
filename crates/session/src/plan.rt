// The plan of a turn: for each lane in order, its guest reaps and acts, and the controller fetches.
ghost use Rattle.std.specs.Prelude.{◌≡◌, ◌+◌, ◌*◌, ◌<◌, ◌≤◌, ◌++◌, true, false};
ghost use Rattle.std.specs.Prelude.{List, [], length, map, vec_len, vec_capacity};
ghost use Rattle.nvm_model.specs.declared.line.Line.TheVariants as line;
ghost use Rattle.nvm_model.specs.declared.script.Act.TheVariants.{Idle};
ghost use Rattle.nvm_model.specs.ScriptText.{IsAct};
ghost use Rattle.nvm_model.specs.Turn.{ActsOn, InLanes, Plans, ReapsAll};
ghost use Rattle.nvm_model.specs.World.{Lane, set_of};
ghost use Rattle.hall.specs.Plan.{pieces_of};
ghost use Rattle.ctl_state.specs.Controller.{pair_of};
ghost use Rattle.controller.specs.Pair.{IsSameButPair, PlansLane, fetch_line};
ghost use Rattle.turns.specs.Parts.{ActsSome, Leads, ReapsSome};
ghost use Rattle.session.specs.LaneParts.{DidAct, HasMore, HasOne, IsGuestStep, IsSeat};
ghost use Rattle.session.specs.LaneParts.{MayFetch, StandBoth, StandsFree, seat_of};
ghost use Rattle.session.specs.Lanes.{Stands};
ghost use Rattle.session.specs.Phases.{FitPlan, HasPlan, MayPlanAll};
ghost use Rattle.session.specs.Place.{AreUndone, StandsFor};
ghost use Rattle.session.specs.Seats.{IsSameButSeats};

use crate::{LaneRun, Place};
use controller::Controller;
use guest_ram::Window;
use hall::Plan;
use lanes::ActAnswer;
use mig_base::LaneNo;
use mig_medium::Medium;
use nvm_model::{Act, Line, Script};
use nvm_values::{Cqe, Status};

/// Plans a turn: for each lane in order, its guest reaps all completions and does acts, and the controller fetches.
pub(crate) fn plan_all<M: Medium>(
    script: &Script,
    runs: &mut Vec<LaneRun>,
    plan: &mut Plan,
    events: &mut Vec<Line>,
    place: &mut Place<M>,
)
    requires may { MayPlanAll script.now runs.old.items plan.old place.old }
    requires room { vec_len events.old + 384 * script.now.head.lanes ≤ vec_capacity events.old }
    ensures leads { (lanes : List Lane)
        → StandsFor script.now runs.old.items place.old.controller place.old.windows lanes
        → Leads (InLanes (Plans script.now) 1)
        (StandsFor script.now runs.new.items place.new.controller place.new.windows)
        lanes events.old.items events.new.items }
    ensures has { HasPlan script.now runs.new.items plan.new place.new × AreUndone runs.new.items }
    ensures kept { IsSameButSeats place.old place.new }
    ensures more { HasMore (384 * script.now.head.lanes) events.old events.new }
{
    for at in 0..usize::from(script.head.lanes) {
        place.plan(script, &mut runs[at], plan, events);
    }
}

/// Plans a lane's turn.
pub(crate) fn plan_lane(
    script: &Script,
    run: &mut LaneRun,
    controller: &mut Controller,
    window: &mut Window,
    plan: &mut Plan,
    events: &mut Vec<Line>,
)
    requires may { MayFetch script.now run.old.script.lane (seat_of run.old controller.old window.old) }
    requires plan { FitPlan script.now plan.old × (pieces_of plan.old run.old.script.lane ≡ []) }
    requires room { vec_len events.old + 384 ≤ vec_capacity events.old }
    ensures leads { (l : Lane)
        → Stands script.now run.old.script.lane run.old (pair_of controller.old run.old.script.lane) window.old l
        → Leads (Plans script.now run.old.script.lane)
        (Stands script.now run.old.script.lane run.new (pair_of controller.new run.old.script.lane) window.new)
        l events.old.items events.new.items }
    ensures seat { IsSeat script.now run.old.script.lane (seat_of run.new controller.new window.new)
        × (run.new.results.items ≡ []) }
    ensures others { IsSameButPair run.old.script.lane controller.old controller.new }
    ensures planned { PlansLane script.now run.old.script.lane plan.old plan.new
        (pair_of controller.new run.old.script.lane) }
    ensures more { HasMore 384 events.old events.new }
{
    let lane = run.script.lane;
    reap_all(script, lane, run, controller, window, events);
    do_acts(script, lane, run, controller, window, events);
    let (blocks, shelf) = (script.head.blocks, script.head.shelf);
    controller.fetch_turn(lane, window, blocks, shelf, plan);
    push_fetches(lane, controller.fetched(lane), events);
}

/// The guest takes every completion that is there: there are fewer than the largest queue has places.
fn reap_all(
    script: &Script,
    lane: LaneNo,
    run: &mut LaneRun,
    controller: &mut Controller,
    window: &Window,
    events: &mut Vec<Line>,
)
    requires seat { IsSeat script.now lane (seat_of run.old controller.old window.now) }
    requires room { vec_len events.old + 256 ≤ vec_capacity events.old }
    ensures reaps { (l : Lane)
        → StandsFree script.now lane (seat_of run.old controller.old window.now) l
        → Leads (ReapsAll script.now lane) (StandsFree script.now lane (seat_of run.new controller.new window.now))
        l events.old.items events.new.items }
    ensures step { IsGuestStep script.now lane (seat_of run.old controller.old window.now)
        (seat_of run.new controller.new window.now) }
    ensures more { HasMore 256 events.old events.new }
{
    for _turn in 0u32..256 {
        if !reap(script, lane, run, controller, window, events) {
            return;
        }
    }
}

/// Takes the oldest completion that is there, if there is one, and tells the controller so.
fn reap(
    script: &Script,
    lane: LaneNo,
    run: &mut LaneRun,
    controller: &mut Controller,
    window: &Window,
    events: &mut Vec<Line>,
) -> bool
    requires seat { IsSeat script.now lane (seat_of run.old controller.old window.now) }
    requires room { vec_len events.old < vec_capacity events.old }
    ensures reaps { (l : Lane)
        → StandsFree script.now lane (seat_of run.old controller.old window.now) l
        → Leads (ReapsSome result script.now lane)
        (StandsFree script.now lane (seat_of run.new controller.new window.now))
        l events.old.items events.new.items }
    ensures step { IsGuestStep script.now lane (seat_of run.old controller.old window.now)
        (seat_of run.new controller.new window.now) }
    ensures more { HasOne result events.old events.new }
{
    match run.guest.reap(window) {
        Some(cqe) => {
            let _rung = controller.ring_cq(lane, run.guest.cq_head());
            events.push_reserved(reap_line(lane, &cqe));
            true
        }
        None => false,
    }
}

fn reap_line(lane: LaneNo, cqe: &Cqe) -> Line
    ensures { result ≡ line.Reap lane cqe.now.cid cqe.now.status cqe.now.sqhd cqe.now.phase }
{
    Line::Reap {
        lane,
        cid: cqe.cid,
        status: cqe.status,
        head: u32::from(cqe.sqhd),
        phase: cqe.phase,
    }
}

/// Does acts until one can't be done yet, until `idle` was done, or until as many were done as a turn allows.
fn do_acts(
    script: &Script,
    lane: LaneNo,
    run: &mut LaneRun,
    controller: &mut Controller,
    window: &mut Window,
    events: &mut Vec<Line>,
)
    requires seat { IsSeat script.now lane (seat_of run.old controller.old window.old) }
    requires room { vec_len events.old + script.now.head.burst ≤ vec_capacity events.old }
    ensures acts { (l : Lane)
        → StandsFree script.now lane (seat_of run.old controller.old window.old) l
        → Leads (ActsOn script.now lane) (StandsFree script.now lane (seat_of run.new controller.new window.new))
        l events.old.items events.new.items }
    ensures step { IsGuestStep script.now lane (seat_of run.old controller.old window.old)
        (seat_of run.new controller.new window.new) }
    ensures more { HasMore script.now.head.burst events.old events.new }
{
    for _done in 0..script.head.burst {
        if !do_next_act(script, lane, run, controller, window, events) {
            return;
        }
    }
}

/// Does the guest's next act, if it has one that it can do now. Whether acts may go on behind it.
fn do_next_act(
    script: &Script,
    lane: LaneNo,
    run: &mut LaneRun,
    controller: &mut Controller,
    window: &mut Window,
    events: &mut Vec<Line>,
) -> bool
    requires seat { IsSeat script.now lane (seat_of run.old controller.old window.old) }
    requires room { vec_len events.old < vec_capacity events.old }
    ensures acts { (l : Lane)
        → StandsFree script.now lane (seat_of run.old controller.old window.old) l
        → Leads (ActsSome result script.now lane)
        (StandsFree script.now lane (seat_of run.new controller.new window.new))
        l events.old.items events.new.items }
    ensures step { IsGuestStep script.now lane (seat_of run.old controller.old window.old)
        (seat_of run.new controller.new window.new) }
    ensures more { HasOne result events.old events.new }
{
    let place = run.acts_done as usize;
    if place == run.script.acts.len() {
        return false;
    }
    let act = run.script.acts[place];
    if !do_act(script, lane, &act, run, controller, window) {
        return false;
    }
    run.acts_done += 1;
    events.push_reserved(Line::Act {
        lane,
        n: run.acts_done,
    });
    !is_idle(&act)
}

fn is_idle(act: &Act) -> bool
    ensures yes { result ≡ true → act.now ≡ Idle }
    ensures not { result ≡ false → act.now ≡ Idle → ⊥ }
{
    match act {
        Act::Idle => true,
        _ => false,
    }
}

/// Does an act, if it can be done now, and rings the doorbell where it submitted an entry.
fn do_act(
    script: &Script,
    lane: LaneNo,
    act: &Act,
    run: &mut LaneRun,
    controller: &mut Controller,
    window: &mut Window,
) -> bool
    requires seat { IsSeat script.now lane (seat_of run.old controller.old window.old) }
    requires act { IsAct (set_of script.now.head lane).pages act.now }
    ensures does { (l : Lane)
        → StandBoth script.now lane (seat_of run.old controller.old window.old) l
        → DidAct result script.now lane act.now l (seat_of run.new controller.new window.new) }
    ensures step { IsGuestStep script.now lane (seat_of run.old controller.old window.old)
        (seat_of run.new controller.new window.new) }
    ensures acts { run.new.acts_done ≡ run.old.acts_done }
{
    match run.guest.act(act, window) {
        ActAnswer::NotYet => false,
        ActAnswer::Done => true,
        ActAnswer::Rang { tail } => {
            let _rung = controller.ring_sq(lane, tail);
            true
        }
    }
}

/// Tells the commands that were fetched.
fn push_fetches(lane: LaneNo, fetched: &[(u16, Status, u32)], events: &mut Vec<Line>)
    requires room { vec_len events.old + length fetched.now ≤ vec_capacity events.old }
    ensures events { events.new.items ≡ events.old.items ++ map (fetch_line lane) fetched.now }
    ensures more { HasMore (length fetched.now) events.old events.new }
{
    for told in fetched {
        events.push_reserved(Line::Fetch {
            lane,
            cid: told.0,
            status: told.1,
            pieces: told.2,
        });
    }
}
