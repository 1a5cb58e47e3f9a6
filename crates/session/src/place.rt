ghost use Rattle.std.specs.Prelude.{◌≡◌, ◌+◌, ◌<◌, ◌≤◌, [], All, length, vec_capacity, vec_len};
ghost use Rattle.nvm_model.specs.Turn.{Plans, PostsAll};
ghost use Rattle.nvm_model.specs.World.{Lane};
ghost use Rattle.nvm_blocks.specs.Namespace.{Enters, block_count, entries_at};
ghost use Rattle.hall.specs.Plan.{pieces_of};
ghost use Rattle.ctl_state.specs.Controller.{pair_of};
ghost use Rattle.controller.specs.Pair.{PlansLane};
ghost use Rattle.turns.specs.Parts.{Leads};
ghost use Rattle.session.specs.LaneParts.{HasMore};
ghost use Rattle.session.specs.Lanes.{IsRunOf};
ghost use Rattle.session.specs.Phases.{FitPlan};
ghost use Rattle.session.specs.Seats.{DoesPieceAt, DropsEntries, HasSeat, IsForPlace, IsSameButSeat, MayPlan, Sits};
ghost use Rattle.session.specs.Work.{MayPost};

mod moving;

use crate::LaneRun;
use crate::plan::plan_lane;
use crate::posts::post_lane;
use controller::Controller;
use guest_ram::Ram;
use hall::Plan;
use mig_medium::Medium;
use nvm_blocks::{Namespace, clear_under};
use nvm_model::{Line, Piece, PieceResult, Script};
use std::marker::Model;

/// One side of a run: its media in shelves, its guests' memory, and its controller.
#[derive(Drop)]
pub struct Place<M: Medium> {
    namespace: Namespace<M>,
    ram: Ram,
    controller: Controller,
}

impl<M: Medium> Model for Place<M> {
    ghost use Rattle.session.specs.Place.{PlaceState};

    ghost Value = { PlaceState M };

    ghost view = { λ p. record { namespace = p.namespace; windows = p.ram; controller = p.controller } };
}

impl<M: Medium> Place<M> {
    /// A side of these parts.
    pub fn open(namespace: Namespace<M>, ram: Ram, controller: Controller) -> Place<M>
        ensures { result ≡ record { namespace = namespace; windows = ram; controller = controller } }
    {
        Place {
            namespace,
            ram,
            controller,
        }
    }

    /// Its parts.
    pub fn shut(self) -> (Namespace<M>, Ram, Controller)
        ensures { result ≡ (self.namespace, self.windows, self.controller) }
    {
        (self.namespace, self.ram, self.controller)
    }

    /// Plans a lane's turn: its guest reaps and acts, and the controller fetches.
    pub(crate) fn plan(
        &mut self,
        script: &Script,
        run: &mut LaneRun,
        plan: &mut Plan,
        events: &mut Vec<Line>,
    )
        requires may { MayPlan script.now run.old self.old }
        requires plan { FitPlan script.now plan.old × (pieces_of plan.old run.old.script.lane ≡ []) }
        requires room { vec_len events.old + 384 ≤ vec_capacity events.old }
        ensures leads { (l : Lane)
            → Sits script.now run.old.script.lane run.old self.old l
            → Leads (Plans script.now run.old.script.lane) (Sits script.now run.old.script.lane run.new self.new)
            l events.old.items events.new.items }
        ensures run { IsRunOf script.now run.old.script.lane run.new × (run.new.results.items ≡ []) }
        ensures seat { IsSameButSeat run.old.script.lane self.old self.new }
        ensures planned { PlansLane script.now run.old.script.lane plan.old plan.new
            (pair_of self.new.controller run.old.script.lane) }
        ensures more { HasMore 384 events.old events.new }
    {
        let window = self.ram.window_mut(run.script.lane);
        plan_lane(script, run, &mut self.controller, window, plan, events);
    }

    /// Drops the entries of the shelves on which pieces lie.
    pub(crate) fn clear_shelves(&mut self, pieces: &[Piece])
        requires { All (λ p. p.span.first < block_count self.old.namespace) pieces.now }
        ensures kept { DropsEntries self.old self.new }
        ensures cleared { All (λ p. entries_at self.new.namespace p.span.first ≡ []) pieces.now }
    {
        clear_under(&mut self.namespace, pieces);
    }

    /// Does a piece, the one of this number of its lane's, which drew this ticket. What it comes to is read from the entry
    /// that its shelf has last.
    pub(crate) fn piece(&mut self, piece: &Piece, index: u32, ticket: u64) -> PieceResult
        requires { IsForPlace piece.now self.old }
        ensures done { DoesPieceAt M.state M.moves piece.now result self.old self.new }
        ensures entered { Enters piece.now.span.first
            (record { lane = piece.now.lane; index = index; ticket = ticket; result = result })
            self.old.namespace self.new.namespace }
    {
        let window = self.ram.window_mut(piece.lane);
        self.controller
            .serve_serial(piece, index, ticket, &mut self.namespace, window);
        self.namespace.last_entry_at(piece.span.first).result
    }

    /// Posts the completions of a lane's fetched commands, whose pieces are all done.
    pub(crate) fn post(&mut self, script: &Script, run: &mut LaneRun, events: &mut Vec<Line>)
        requires seat { HasSeat script.now run.old self.old }
        requires done { MayPost script.now run.old.script.lane run.old
            (pair_of self.old.controller run.old.script.lane) }
        requires room { vec_len events.old + 64 ≤ vec_capacity events.old }
        ensures leads { (l : Lane)
            → Sits script.now run.old.script.lane run.old self.old l
            → Leads (PostsAll script.now run.old.script.lane) (Sits script.now run.old.script.lane run.new self.new)
            l events.old.items events.new.items }
        ensures rests { IsRunOf script.now run.old.script.lane run.new × (run.new.results.items ≡ [])
            × ((pair_of self.new.controller run.old.script.lane).commands ≡ []) }
        ensures seat { IsSameButSeat run.old.script.lane self.old self.new }
        ensures more { HasMore 64 events.old events.new }
    {
        let window = self.ram.window_mut(run.script.lane);
        post_lane(script, run, &mut self.controller, window, events);
    }
}
