// The guest of a queue pair: it takes completions out of its queue, and does acts.
ghost use Rattle.std.specs.Prelude.{◌≡◌, ◌-◌, ◌<◌, ◌≤◌, ◌↔◌, IsTrue, length, true};
ghost use Rattle.nvm_model.specs.Memory.{page_at};
ghost use Rattle.nvm_model.specs.ScriptText.{IsAct, IsSet};
ghost use Rattle.nvm_model.specs.World.{Lane};
ghost use Rattle.lanes.specs.Guest.{Acts, CanDo, Does, Reaps, Stands, TakesNext};

use crate::{Act, PairSet, act};
use guest_ram::Window;
use mig_base::LaneNo;
use nvm_ring::{GuestCq, GuestSq};
use nvm_values::Cqe;
use std::marker::Model;

/// What became of an act.
#[derive(Clone, Copy, Debug, PartialEq, Eq)]
pub enum ActAnswer {
    /// It was done, and submitted nothing.
    Done,
    /// It was done and submitted an entry: the submission queue's doorbell is to be rung with this tail.
    Rang { tail: u16 },
    /// It can't be done yet: the submission queue is full as far as the guest knows, or a wait finds a submitted command
    /// whose completion wasn't reaped. Nothing changed.
    NotYet,
}

/// A guest's ends of its queue pair. The entries are in the two ring pages of the lane's window, and nowhere else.
#[derive(Drop)]
pub struct Guest {
    lane: LaneNo,
    sq: GuestSq,
    cq: GuestCq,
    // How many entries were submitted whose completions weren't reaped.
    waiting: u32,
}

impl Model for Guest {
    ghost use Rattle.lanes.specs.Guest.{GuestState};

    ghost Value = { GuestState };

    ghost view = { λ g. record { lane = g.lane; sq = g.sq; cq = g.cq; waiting = g.waiting } };
}

impl Guest {
    ghost use Rattle.nvm_model.specs.declared.script.LaneSet.{LaneSet};

    /// The guest of a lane, over a zeroed window: nothing was submitted, and nothing reaped.
    pub fn new(lane: LaneNo, set: PairSet) -> Guest
        requires { IsSet set }
        ensures lane { result.lane ≡ lane }
        ensures waiting { result.waiting ≡ 0 }
        ensures sq { result.sq ≡ record { size = set.sq; head = 0; tail = 0 } }
        ensures cq { result.cq ≡ record { size = set.cq; head = 0; phase = true } }
    {
        Guest {
            lane,
            sq: GuestSq::new(set.sq),
            cq: GuestCq::new(set.cq),
            waiting: 0,
        }
    }

    /// Takes the oldest completion that wasn't taken, and learns the submission queue's head from it; `None` exactly where
    /// the cell at the guest's place has the phase tag of the pass before (Base 2.1, Phase Tag). The completion queue's
    /// doorbell is to be rung with `cq_head` then.
    pub fn reap(&mut self, w: &Window) -> Option<Cqe>
        requires { 2 ≤ length w.now.pages }
        ensures takes { TakesNext (page_at w.now.pages 1) self.old self.new result }
        ensures reaps { (set : LaneSet) (lane : Lane) → IsSet set → Stands set self.old w.now lane
            → Reaps set self.old self.new w.now lane result }
    {
        let cqe = self.cq.reap(w.page(1))?;
        self.waiting = self.waiting.saturating_sub(1);
        let _learnt = self.sq.learn(cqe.sqhd);
        Some(cqe)
    }

    /// Does an act, which is one of a script for a lane with as many data pages as this window has.
    pub fn act(&mut self, a: &Act, w: &mut Window) -> ActAnswer
        requires pages { (2 < length w.old.pages) × (length w.old.pages ≤ 258) }
        requires act { IsAct (length w.old.pages - 2) a.now }
        ensures acts { Acts a.now self.old self.new w.old w.new result }
        ensures size { length w.new.pages ≡ length w.old.pages }
        ensures does { (set : LaneSet) (lane : Lane) → IsSet set → Stands set self.old w.old lane
            → Does set a.now self.old self.new w.old w.new lane result }
    {
        if !self.may_do(a) {
            return ActAnswer::NotYet;
        }
        act::write_act(self.lane, a, w);
        let Some(entry) = act::entry_of(self.lane, a) else {
            return ActAnswer::Done;
        };
        let tail = act::submit(&entry, &mut self.sq, w);
        self.waiting = self.waiting.saturating_add(1);
        ActAnswer::Rang { tail }
    }

    /// Whether the guest can do an act now.
    fn may_do(&self, a: &Act) -> bool
        ensures { IsTrue result ↔ CanDo self.now a.now }
    {
        match a {
            Act::Submit { .. } | Act::Raw { .. } => !self.sq.is_full(),
            Act::Wait => self.waiting == 0,
            Act::Fill { .. } | Act::Poke { .. } | Act::List { .. } | Act::Idle => true,
        }
    }

    /// Whether every entry that it submitted has a completion that it reaped.
    pub fn is_quiet(&self) -> bool
        ensures { IsTrue result ↔ self.now.waiting ≡ 0 }
    {
        self.waiting == 0
    }

    /// The place of the next completion, which the completion queue's doorbell is rung with.
    pub fn cq_head(&self) -> u16
        ensures { result ≡ self.now.cq.head }
    {
        self.cq.head()
    }
}
