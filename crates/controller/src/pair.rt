// A queue pair's part of a turn: it fetches and posts.
ghost use Rattle.std.specs.Prelude.{◌≡◌, [], ℕ, ◌+◌, ◌*◌, ◌^◌, ◌<◌, ◌≤◌, IfOk, drop, length, map, slice_index_or, sum};
ghost use Rattle.std.specs.List.{range_with_len};
ghost use Rattle.nvm_values.specs.Cqe.{cqe_bytes};
ghost use Rattle.nvm_values.specs.Status.{StatusPair};
ghost use Rattle.nvm_model.specs.Piece.{piece_count, pieces_left};
ghost use Rattle.nvm_model.specs.Ring.{cell};
ghost use Rattle.nvm_model.specs.ScriptText.{IsSet};
ghost use Rattle.guest_ram.specs.Window.{ctrl_written};
ghost use Rattle.nvm_ring.specs.Moves.{IsReadBack, after_post, with_phase};
ghost use Rattle.nvm_cmd.specs.Cut.{piece_of};
ghost use Rattle.hall.specs.Plan.{pieces_of};
ghost use Rattle.controller.specs.Pair.{FetchesLane, FetchesTurn, IsFetched, PostsLane, PostsTurn, RingsCq, RingsReaped, RingsSq, command_pieces, free_places, new_pair, outcomes_of, with_pieces};
ghost use Rattle.ctl_state.specs.Image.{IsPair as IsPairImage};
ghost use Rattle.ctl_state.specs.Admin.{image_of, with_rings};
ghost use Rattle.controller.specs.Parts.{TakesEntry, joined};

use crate::PairSet;
use crate::check::check;
use ctl_state::PairState as PairImage;
use guest_ram::Window;
use hall::Plan;
use mig_base::{LaneNo, OutOfMemory};
use nvm_cmd::{Job, finish, join_status, piece, piece_count};
use nvm_model::{Command, PieceResult, RingState};
use nvm_ring::{BadDoorbell, CqRing, SqRing};
use nvm_values::{Cqe, Sqe, Status};
use std::alloc::Global;
use std::marker::Model;

/// The controller's part of a queue pair.
#[derive(Drop)]
pub(crate) struct Pair {
    sq: SqRing,
    cq: CqRing,
    // Those that were fetched in this turn, as they were then.
    commands: Vec<Command>,
    // What is told of them, and of the completions that were posted last.
    fetched: Vec<(u16, Status, u32)>,
    posted: Vec<(u16, Status)>,
    // The most commands of a turn.
    room: u32,
}

impl Model for Pair {
    ghost use Rattle.std.specs.Prelude.{vec_capacity};
    ghost use Rattle.ctl_state.specs.Controller.{PairState};
    ghost use Rattle.controller.specs.Parts.{HasRoom, IsPair};

    ghost Value = { PairState };

    ghost view = { λ p. record {
      sq = p.sq;
      cq = p.cq;
      commands = p.commands.items;
      fetched = p.fetched.items;
      posted = p.posted.items;
      room = p.room;
    } };

    ghost invariant = { λ p. IsPair (record {
      sq = p.sq;
      cq = p.cq;
      commands = p.commands.items;
      fetched = p.fetched.items;
      posted = p.posted.items;
      room = p.room;
    }) × HasRoom p.room (vec_capacity p.commands) (vec_capacity p.fetched) (vec_capacity p.posted) };
}

impl Pair {
    /// An empty pair, with room for so many commands of a turn.
    ///
    /// # Errors
    ///
    /// `OutOfMemory` where there is no memory for them.
    pub(crate) fn make(alloc: Global, set: &PairSet, room: u32) -> Result<Pair, OutOfMemory>
        requires set { IsSet set.now }
        requires few { room ≤ 64 }
        ensures { IfOk result (λ pair. pair ≡ new_pair room set.now) }
    {
        Ok(Pair {
            sq: SqRing::new(start(set.sq)),
            cq: CqRing::new(start(set.cq), true),
            commands: Vec::with_capacity(alloc, room as usize)?,
            fetched: Vec::with_capacity(alloc, room as usize)?,
            posted: Vec::with_capacity(alloc, room as usize)?,
            room,
        })
    }

    /// Its rings, as an image has them.
    pub(crate) fn image(&self) -> PairImage
        ensures rings { result ≡ image_of self.now }
        ensures sound { IsPairImage result }
    {
        PairImage {
            sq: self.sq.state(),
            cq: self.cq.state(),
            phase: self.cq.phase(),
        }
    }

    /// It goes on with the rings of an image; no command is fetched.
    pub(crate) fn load(&mut self, image: &PairImage)
        requires rings { IsPairImage image.now }
        requires none { self.old.commands ≡ [] }
        ensures { self.new ≡ with_rings image.now self.old }
    {
        self.sq = SqRing::new(image.sq);
        self.cq = CqRing::new(image.cq, image.phase);
    }

    /// The doorbell of the submission queue is rung.
    pub(crate) fn ring_sq(&mut self, value: u16) -> Result<(), BadDoorbell>
        ensures { RingsSq value result self.old self.new }
    {
        self.sq.set_tail(value)
    }

    /// The doorbell of the completion queue is rung.
    pub(crate) fn ring_cq(&mut self, value: u16) -> Result<(), BadDoorbell>
        ensures step { RingsCq value result self.old self.new }
        ensures rung { RingsReaped value result self.old self.new }
    {
        self.cq.set_head(value)
    }

    /// The commands that were fetched in this turn, and the completions that the last `finish_turn` posted.
    pub(crate) fn fetched(&self) -> &[(u16, Status, u32)]
        ensures { result.now ≡ self.now.fetched }
    {
        self.fetched.as_slice()
    }

    pub(crate) fn posted(&self) -> &[(u16, Status)]
        ensures { result.now ≡ self.now.posted }
    {
        self.posted.as_slice()
    }

    /// Fetches commands, checks them, and puts their pieces into the plan.
    pub(crate) fn fetch_turn(
        &mut self,
        lane: LaneNo,
        w: &Window,
        blocks: u32,
        shelf: u32,
        plan: &mut Plan,
    )
        requires shelf { 1 ≤ shelf }
        requires pages { 2 ≤ length w.now.pages }
        requires planned { (1 ≤ lane) × (lane ≤ length plan.old.lanes) }
        requires space { length (pieces_of plan.old lane) + 64 * self.old.room ≤ plan.old.room }
        ensures step { FetchesTurn lane blocks shelf self.old.room w.now plan.old plan.new self.old self.new }
        ensures fetches { FetchesLane lane blocks shelf self.old.room w.now self.old self.new }
        ensures room { self.new.room ≡ self.old.room }
    {
        'fetches: for _done in self.commands.len()..self.room as usize {
            let Some(entry) = self.take_entry(w) else {
                return;
            };
            let command = check(blocks, self.commands.as_slice(), w, &entry);
            let pieces = plan_command(&command, lane, shelf, plan);
            self.commands.push_reserved(command);
            self.fetched
                .push_reserved((command.cid, command.status, pieces));
        }
    }

    /// Takes the oldest entry out of the submission queue, where one is there and its completion has room.
    fn take_entry(&mut self, w: &Window) -> Option<Sqe>
        requires { 2 ≤ length w.now.pages }
        ensures { TakesEntry w.now self.old self.new result }
    {
        if self.commands.len() >= usize::from(self.cq.free()) {
            return None;
        }
        let entry = self.sq.fetch(w.page(0))?;
        Some(entry)
    }

    /// Posts the completions of the fetched commands, whose pieces ended so.
    pub(crate) fn finish_turn(&mut self, lane: LaneNo, results: &[PieceResult], w: &mut Window)
        requires pages { 2 ≤ length w.old.pages }
        requires results { length results.now ≡ sum (map (λ f. f.2) self.old.fetched) }
        ensures step { PostsTurn lane results.now w.old w.new self.old self.new }
        ensures posts { PostsLane lane results.now w.old w.new self.old self.new }
        ensures window { (w.new.lane ≡ w.old.lane) × (length w.new.pages ≡ length w.old.pages) }
        ensures room { self.new.room ≡ self.old.room }
    {
        self.posted.clear();
        let head = self.sq.state().head;
        let mut at = 0;
        'posts: for place in 0..self.commands.len() {
            let end = at + pieces_at(self.fetched.as_slice(), place);
            let command = self.commands[place];
            let status = joined_status(&command, &results[at..end]);
            let entry = finish(command.cid, lane, status, head);
            post(&entry, &mut self.cq, w);
            self.posted.push_reserved((command.cid, status));
            at = end;
        }
        self.commands.clear();
        self.fetched.clear();
    }
}

/// An empty ring.
fn start(size: u16) -> RingState
    ensures { result ≡ record { size = size; head = 0; tail = 0 } }
{
    RingState {
        size,
        head: 0,
        tail: 0,
    }
}

/// How many pieces the fetched command at a place has.
fn pieces_at(fetched: &[(u16, Status, u32)], place: usize) -> usize
    requires { place < length fetched.now }
    ensures value { (d : ℕ × StatusPair × ℕ) → result ≡ (slice_index_or fetched.now place d).2 }
    ensures left { result + sum (map (λ f. f.2) (drop (place + 1) fetched.now))
        ≡ sum (map (λ f. f.2) (drop place fetched.now)) }
{
    fetched[place].2 as usize
}

/// Puts a fetched command's pieces into the plan, and answers how many it has.
fn plan_command(command: &Command, lane: LaneNo, shelf: u32, plan: &mut Plan) -> u32
    requires shelf { 1 ≤ shelf }
    requires fetched { (blocks : ℕ) × (pages : ℕ) × (blocks < 2 ^ 32) × IsFetched blocks pages command.now }
    requires planned { (1 ≤ lane) × (lane ≤ length plan.old.lanes) }
    requires room { length (pieces_of plan.old lane) + 64 ≤ plan.old.room }
    ensures count { result ≡ pieces_left shelf command.now }
    ensures few { length (command_pieces lane shelf command.now) ≤ 64 }
    ensures planned { plan.new ≡ with_pieces lane (command_pieces lane shelf command.now) plan.old }
{
    match command.work {
        None => 0,
        Some(work) => {
            let job = Job {
                op: work.op,
                cid: command.cid,
                span: work.span,
                pages: work.pages,
            };
            plan_job(&job, lane, shelf, plan)
        }
    }
}

/// Puts the pieces of a job into the plan, and answers how many it has.
fn plan_job(job: &Job, lane: LaneNo, shelf: u32, plan: &mut Plan) -> u32
    requires shelf { 1 ≤ shelf }
    requires some { 1 ≤ job.now.span.count }
    requires few { job.now.span.count ≤ 64 }
    requires numbered { job.now.span.first + job.now.span.count ≤ 2 ^ 32 }
    requires planned { (1 ≤ lane) × (lane ≤ length plan.old.lanes) }
    requires room { length (pieces_of plan.old lane) + 64 ≤ plan.old.room }
    ensures count { result ≡ piece_count shelf job.now.span }
    ensures few { result ≤ 64 }
    ensures planned { plan.new
        ≡ with_pieces lane (map (λ (i : ℕ). piece_of lane shelf i job.now) (range_with_len 0 result)) plan.old }
{
    let count = piece_count(job, shelf);
    for i in 0..count {
        plan.push(piece(job, lane, shelf, i));
    }
    count
}

/// A command's status once its pieces ended so.
fn joined_status(command: &Command, results: &[PieceResult]) -> Status
    ensures { result ≡ joined command.now.work (outcomes_of results.now) command.now.status }
{
    let mut status = command.status;
    if let Some(work) = command.work {
        for r in results {
            status = join_status(status, work.op, r);
        }
    }
    status
}

/// Puts a completion into its place of the completion queue's page. There is a free place.
fn post(entry: &Cqe, cq: &mut CqRing, w: &mut Window)
    requires pages { 2 ≤ length w.old.pages }
    requires room { 1 ≤ free_places cq.old }
    ensures moved { cq.new ≡ after_post cq.old }
    ensures written { w.new
        ≡ ctrl_written w.old 1 (16 * cq.old.ring.tail) (cqe_bytes (with_phase cq.old.phase entry.now)) }
    ensures back { IsReadBack (with_phase cq.old.phase entry.now) }
    ensures frees { free_places cq.old ≤ free_places cq.new + 1 }
    ensures size { length w.new.pages ≡ length w.old.pages }
{
    let place = cq.state().tail;
    let mut page = *w.page(1);
    cq.post(&mut page, entry).unwrap();
    keep_completion(place, &page, w);
}

/// Writes a completion's bytes of a copy of the completion queue's page back into the window.
fn keep_completion(place: u16, page: &[u8; 4096], window: &mut Window)
    requires pages { 1 < length window.old.pages }
    requires there { place < 256 }
    ensures written { window.new ≡ ctrl_written window.old 1 (16 * place) (cell 16 place page.now) }
    ensures size { length window.new.pages ≡ length window.old.pages }
{
    let at = 16 * place;
    let from = usize::from(at);
    window.write_ctrl(1, at, &page[from..from + 16]);
}
