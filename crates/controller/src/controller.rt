ghost use Rattle.std.specs.Prelude.{◌≡◌, ◌+◌, ◌*◌, ◌/◌, ◌≤◌, ◌<◌, IfNone, IfOk, IfSome, All, is_none, length, map, not, sum};
ghost use Rattle.nvm_values.specs.declared.op.Op.TheVariants.{Flush, Read};
ghost use Rattle.nvm_model.specs.ScriptText.{IsSet};
ghost use Rattle.guest_ram.specs.Window.{data_pages};
ghost use Rattle.hall.specs.Plan.{pieces_of};
ghost use Rattle.nvm_blocks.specs.Namespace.{HasAppliedIn, HasRoom, IsForNamespace, entries_of, with_entry};
ghost use Rattle.nvm_blocks.specs.Work.{IsSameButData};
ghost use Rattle.ctl_state.specs.declared.phase.Phase.TheVariants.{Running, Loading};
ghost use Rattle.ctl_state.specs.Controller.{TakesChange, pair_of};
ghost use Rattle.data_queue.specs.Change.{IsChange};
ghost use Rattle.controller.specs.Pair.{AtLane, FetchesLane, FetchesTurn, IsMade, PostsLane, PostsTurn, RingsCq, RingsReaped, RingsSq};
ghost use Rattle.controller.specs.Changes.{Notes, changed_count};
ghost use Rattle.controller.specs.Slot.{lent_queue};

use crate::PairSet;
use crate::pair::Pair;
use crate::slot::QueueSlot;
use ctl_state::{Parts, Phase};
use data_queue::{Change, DataQueue};
use guest_ram::Window;
use hall::Plan;
use mig_base::{LaneNo, OutOfMemory, Span};
use mig_medium::Medium;
use nvm_blocks::Namespace;
use nvm_model::{Outcome, Piece, PieceResult};
use nvm_ring::BadDoorbell;
use nvm_values::{Op, Status};
use std::alloc::Global;
use std::marker::Model;
use track::Tracker;

/// A controller of from 1 to 8 queue pairs.
#[derive(Drop)]
pub struct Controller {
    // That of lane 1 first.
    pub(crate) pairs: Vec<Pair>,
    burst: u32,
    pub(crate) phase: Phase,
    // Where changes of user data are told, and whether they are.
    pub(crate) queue: QueueSlot,
    pub(crate) tracker: Tracker,
    // What was fed of a state.
    pub(crate) parts: Parts,
}

impl Model for Controller {
    ghost use Rattle.std.specs.Prelude.{◌≡◌, ◌≤◌, All, length};
    ghost use Rattle.ctl_state.specs.Controller.{ControllerState};

    ghost Value = { ControllerState };

    ghost view = { λ c. record {
      pairs = c.pairs.items;
      burst = c.burst;
      phase = c.phase;
      queue = c.queue;
      logging = c.tracker;
      fed = c.parts;
    } };

    ghost invariant = { λ c. All (λ p. p.room ≡ c.burst) c.pairs.items × (c.burst ≤ 64)
        × (1 ≤ length c.pairs.items) × (length c.pairs.items ≤ 8) × (c.parts.lanes ≡ length c.pairs.items) };
}

impl Controller {
    /// A running controller of from 1 to 8 queue pairs, that of lane 1 first, with empty rings. It fetches at most `burst`
    /// commands of a lane in a turn. `cells`, from 2 to 65,536, is the size of its change queue.
    ///
    /// # Errors
    ///
    /// `OutOfMemory` where there is no memory for it.
    pub fn make(
        alloc: Global,
        pairs: &[PairSet],
        cells: u32,
        burst: u32,
    ) -> Result<Controller, OutOfMemory>
        requires pairs { (1 ≤ length pairs.now) × (length pairs.now ≤ 8) × All IsSet pairs.now }
        requires cells { (2 ≤ cells) × (cells ≤ 65536) }
        requires burst { (1 ≤ burst) × (burst ≤ 64) }
        ensures made { IfOk result (IsMade Running pairs.now cells burst) }
    {
        make_in(alloc, Phase::Running, pairs, cells, burst)
    }

    /// The same of a controller that takes another's state, of which nothing is fed.
    ///
    /// # Errors
    ///
    /// `OutOfMemory` where there is no memory for it.
    pub fn blank(
        alloc: Global,
        pairs: &[PairSet],
        cells: u32,
        burst: u32,
    ) -> Result<Controller, OutOfMemory>
        requires pairs { (1 ≤ length pairs.now) × (length pairs.now ≤ 8) × All IsSet pairs.now }
        requires cells { (2 ≤ cells) × (cells ≤ 65536) }
        requires burst { (1 ≤ burst) × (burst ≤ 64) }
        ensures made { IfOk result (IsMade Loading pairs.now cells burst) }
    {
        make_in(alloc, Phase::Loading, pairs, cells, burst)
    }

    /// What it does.
    pub fn phase(&self) -> Phase
        ensures { result ≡ self.now.phase }
    {
        self.phase
    }

    /// The guest of a lane rings the doorbell of its submission queue (Base 2.1, submission queue tail doorbell).
    ///
    /// # Errors
    ///
    /// `BadDoorbell` exactly where the value is the ring's size or more; nothing changed then.
    pub fn ring_sq(&mut self, lane: LaneNo, value: u16) -> Result<(), BadDoorbell>
        requires { lane ≤ length self.old.pairs }
        ensures { AtLane lane (RingsSq value result) self.old self.new }
    {
        let pair = &mut self.pairs[usize::from(lane.get()) - 1];
        pair.ring_sq(value)
    }

    /// The guest of a lane rings the doorbell of its completion queue (Base 2.1, completion queue head doorbell).
    ///
    /// # Errors
    ///
    /// `BadDoorbell` exactly where the value isn't one of the places from head to tail in ring order; nothing changed then.
    pub fn ring_cq(&mut self, lane: LaneNo, value: u16) -> Result<(), BadDoorbell>
        requires { lane ≤ length self.old.pairs }
        ensures step { AtLane lane (RingsCq value result) self.old self.new }
        ensures rung { AtLane lane (RingsReaped value result) self.old self.new }
    {
        let pair = &mut self.pairs[usize::from(lane.get()) - 1];
        pair.ring_cq(value)
    }

    /// Fetches commands of a lane, checks them, and puts their pieces into the plan: until `burst` were fetched in this
    /// turn, none is left, or the completion queue has no room for another completion. `w` is the lane's window, the
    /// namespace has `blocks` blocks in shelves of `shelf`.
    pub fn fetch_turn(&mut self, lane: LaneNo, w: &Window, blocks: u32, shelf: u32, plan: &mut Plan)
        requires running { self.old.phase ≡ Running }
        requires there { (lane ≤ length self.old.pairs) × (lane ≤ length plan.old.lanes) }
        requires shelf { 1 ≤ shelf }
        requires window { (w.now.lane ≡ lane) × (2 ≤ length w.now.pages) }
        requires room { length (pieces_of plan.old lane) + 64 * self.old.burst ≤ plan.old.room }
        ensures step { AtLane lane (FetchesTurn lane blocks shelf self.old.burst w.now plan.old plan.new)
            self.old self.new }
        ensures fetches { AtLane lane (FetchesLane lane blocks shelf self.old.burst w.now) self.old self.new }
    {
        let pair = &mut self.pairs[usize::from(lane.get()) - 1];
        pair.fetch_turn(lane, w, blocks, shelf, plan);
    }

    /// The commands of a lane that were fetched in this turn, in order: identifier, status, and number of pieces.
    pub fn fetched(&self, lane: LaneNo) -> &[(u16, Status, u32)]
        requires { lane ≤ length self.now.pairs }
        ensures { result.now ≡ (pair_of self.now lane).fetched }
    {
        self.pairs[usize::from(lane.get()) - 1].fetched()
    }

    /// Does a piece of a lane of a turn on one thread: a piece of from 1 to 64 blocks, all in one shelf, that isn't a
    /// Flush. `w` is its lane's window, and has the pages that its blocks need. The piece stops at the first call of the
    /// medium that fails and, for a Compare, at the first block that differs. Its entry, for which its shelf has room,
    /// says how it ended.
    pub fn serve_serial<M: Medium>(
        &mut self,
        p: &Piece,
        index: u32,
        ticket: u64,
        namespace: &mut Namespace<M>,
        w: &mut Window,
    ) -> PieceResult
        requires piece { IsForNamespace namespace.old (length (data_pages w.old)) p.now × (p.now.span.first < 131072) }
        requires room { HasRoom namespace.old (p.now.span.first / namespace.old.shelf) }
        ensures applied { HasAppliedIn M.state M.moves p.now result namespace.old (data_pages w.old) namespace.new (data_pages w.new) }
        ensures entry { entries_of namespace.new ≡ with_entry (p.now.span.first / namespace.old.shelf)
            (record { lane = p.now.lane; index = index; ticket = ticket; result = result }) (entries_of namespace.old) }
        ensures window { IsSameButData w.old w.new }
        ensures kept { (p.now.op ≡ Read → ⊥) → w.new ≡ w.old }
        ensures noted { Notes p.now result self.old self.new }
    {
        let done = namespace.apply(p, index, ticket, w);
        self.note(p, &done);
        done
    }

    /// Notes the blocks that a piece changed.
    fn note(&mut self, p: &Piece, done: &PieceResult)
        requires { (p.now.span.first < 131072) × (changed_count p.now done.now.outcome ≤ 64) }
        ensures { Notes p.now done.now self.old self.new }
    {
        let count = changed_count(p, done.outcome);
        if count > 0 {
            let span = Span {
                first: p.span.first,
                count,
            };
            self.queue.note(&self.tracker, Change { span });
        }
    }

    /// Takes the oldest change of its queue that isn't taken: `None` exactly where there is none, or the queue isn't live.
    pub fn take_change(&mut self) -> Option<Change>
        ensures change { IfSome result IsChange }
        ensures taken { TakesChange self.old result self.new }
    {
        if !self.queue.live() {
            return None;
        }
        self.queue.take()
    }

    /// Lends its change queue, so that threads can share it: `None` exactly where no queue is live or it is lent. Until it
    /// comes back no change is noted, and an admin command finds no queue.
    pub fn lend_queue(&mut self) -> Option<DataQueue>
        ensures none { is_none result ≡ not self.old.queue.live }
        ensures lent { IfSome result (λ q. (q ≡ self.old.queue) × (self.new ≡ record self.old { queue = lent_queue })) }
        ensures kept { IfNone result (self.new ≡ self.old) }
    {
        self.queue.lend()
    }

    /// Takes the queue that it lent back.
    pub fn return_queue(&mut self, q: DataQueue)
        requires { self.old.queue ≡ lent_queue }
        ensures { self.new ≡ record self.old { queue = q } }
    {
        self.queue.give_back(q);
    }

    /// Posts the completions of a lane's fetched commands. `results` has one result for each piece of the lane's plan, in
    /// its order, and `w` is the lane's window.
    pub fn finish_turn(&mut self, lane: LaneNo, results: &[PieceResult], w: &mut Window)
        requires there { lane ≤ length self.old.pairs }
        requires window { (w.old.lane ≡ lane) × (2 ≤ length w.old.pages) }
        requires results { length results.now ≡ sum (map (λ f. f.2) (pair_of self.old lane).fetched) }
        ensures step { AtLane lane (PostsTurn lane results.now w.old w.new) self.old self.new }
        ensures posts { AtLane lane (PostsLane lane results.now w.old w.new) self.old self.new }
        ensures window { (w.new.lane ≡ w.old.lane) × (length w.new.pages ≡ length w.old.pages) }
    {
        let pair = &mut self.pairs[usize::from(lane.get()) - 1];
        pair.finish_turn(lane, results, w);
    }

    /// The completions of a lane that the last `finish_turn` posted, in order: identifier and status.
    pub fn posted(&self, lane: LaneNo) -> &[(u16, Status)]
        requires { lane ≤ length self.now.pairs }
        ensures { result.now ≡ (pair_of self.now lane).posted }
    {
        self.pairs[usize::from(lane.get()) - 1].posted()
    }
}

/// A controller in that phase, with empty rings and no change queue.
fn make_in(
    alloc: Global,
    phase: Phase,
    pairs: &[PairSet],
    cells: u32,
    burst: u32,
) -> Result<Controller, OutOfMemory>
    requires pairs { (1 ≤ length pairs.now) × (length pairs.now ≤ 8) × All IsSet pairs.now }
    requires cells { (2 ≤ cells) × (cells ≤ 65536) }
    requires burst { burst ≤ 64 }
    ensures { IfOk result (IsMade phase pairs.now cells burst) }
{
    let mut all = Vec::with_capacity(alloc, pairs.len())?;
    'pairs: for set in pairs {
        all.push_reserved(Pair::make(alloc, set, burst)?);
    }
    Ok(Controller {
        pairs: all,
        burst,
        phase,
        queue: QueueSlot::make(alloc, cells)?,
        tracker: Tracker::new(),
        parts: Parts::new(pairs.len() as u8),
    })
}

/// How many blocks a piece changed, from its first on: those that a Write or a Write Zeroes did.
fn changed_count(p: &Piece, outcome: Outcome) -> u32
    ensures { result ≡ changed_count p.now outcome }
{
    match (p.op, outcome) {
        (Op::Write | Op::WriteZeroes, Outcome::Done) => p.span.count,
        (Op::Write | Op::WriteZeroes, Outcome::Faulted { at } | Outcome::Differs { at }) => at,
        _ => 0,
    }
}
