// The pieces of commands.
ghost use Rattle.std.specs.Prelude.{◌≡◌, ◌+◌, ◌^◌, ◌<◌, ◌≤◌, ◌↔◌, ℕ, All, IfNone, IfSome, IsTrue, List, length, slice_index_or, take};
ghost use Rattle.nvm_model.specs.declared.command.Command.{Command};
ghost use Rattle.nvm_model.specs.declared.script.Script.{Script};
ghost use Rattle.nvm_model.specs.Event.{DoesPiece};
ghost use Rattle.nvm_model.specs.Piece.{after_piece, pieces_left};
ghost use Rattle.nvm_model.specs.World.{Lane};
ghost use Rattle.guest_ram.specs.Window.{data_pages};
ghost use Rattle.nvm_blocks.specs.Work.{IsForShelf};
ghost use Rattle.nvm_cmd.specs.Answer.{job_of};
ghost use Rattle.nvm_cmd.specs.Cut.{piece_of};
ghost use Rattle.judge.specs.Decides.{Decides};
ghost use Rattle.judge.specs.Lane.{IsAtWork, IsDoable, IsLaneOf, IsNamed, IsNumbered, IsSameScript, IsSound, model_of};

use super::JudgedLane;
use crate::command::{job_of, pieces_left};
use crate::piece::replay;
use crate::replay::Replay;
use mig_base::Span;
use nvm_cmd::{join_status, piece};
use nvm_model::{Command, Outcome, Piece, PieceResult, Work};

/// What a line tells of a piece.
#[derive(Clone, Copy)]
pub(crate) struct Told {
    pub cid: u16,
    pub first: u32,
    pub count: u32,
    pub outcome: Outcome,
    pub digest: Option<[u8; 32]>,
}

/// A running command that has a piece which isn't done: its place among the running ones, and its work.
#[derive(Clone, Copy)]
struct AtWork {
    place: usize,
    command: Command,
    work: Work,
}

impl Told {
    /// Whether the piece is one of the command of this identifier, and has these blocks.
    fn names(&self, cid: u16, span: &Span) -> bool
        ensures { IsTrue result ↔ IsNamed self.now.cid self.now.first self.now.count cid span.now }
    {
        self.cid == cid && self.first == span.first && self.count == span.count
    }
}

impl JudgedLane {
    /// Does the first piece that isn't done of the first command that has one, if it is this one, and it may have ended
    /// so: whether it is. Where it isn't, what the pages and the namespace hold isn't known.
    pub(super) fn piece(&mut self, told: &Told, namespace: &mut Replay) -> bool
        requires namespace { length namespace.old.blocks ≡ self.old.blocks }
        requires sound { IsSound self.old }
        ensures step { (s : Script) → IsLaneOf s self.old
            → Decides result (λ (x : List (List ℕ) × Lane). DoesPiece s told.now.cid told.now.first told.now.count told.now.outcome told.now.digest namespace.old.blocks (model_of self.old) x.0 x.1) (namespace.new.blocks, model_of self.new) }
        ensures same { IsSameScript self.old self.new }
        ensures sound { IsSound self.new }
        ensures size { length namespace.new.blocks ≡ length namespace.old.blocks }
    {
        let Some(found) = self.first_work() else {
            return false;
        };
        let piece = self.next_piece(&found);
        if !told.names(found.command.cid, &piece.span) {
            return false;
        }
        let Some(result) = replay(
            &piece,
            told.outcome,
            told.digest,
            &mut self.window,
            namespace,
        ) else {
            return false;
        };
        let place = self.posted.len() + found.place;
        self.commands[place] = after_piece(&found.command, &found.work, &result);
        true
    }

    /// The first running command that has a piece which isn't done.
    fn first_work(&self) -> Option<AtWork>
        requires { IsSound self.now }
        ensures found { IfSome result (λ a. IsAtWork self.now.shelf (model_of self.now).running a.place a.command a.work) }
        ensures doable { IfSome result (λ a. IsDoable self.now.blocks self.now.set.pages a.work) }
        ensures none { IfNone result (All (λ c. pieces_left self.now.shelf c ≡ 0) (model_of self.now).running) }
    {
        let place = first_at_work(self.running(), self.shelf)?;
        let command = self.running()[place];
        match command.work {
            Some(work) => Some(AtWork {
                place,
                command,
                work,
            }),
            None => unreachable!(),
        }
    }

    /// Its next piece.
    fn next_piece(&self, found: &AtWork) -> Piece
        requires sound { IsSound self.now }
        requires found { IsAtWork self.now.shelf (model_of self.now).running found.now.place found.now.command found.now.work }
        requires doable { IsDoable self.now.blocks self.now.set.pages found.now.work }
        ensures value { result ≡ piece_of self.now.lane self.now.shelf found.now.work.done (job_of found.now.command.cid found.now.work) }
        ensures fits { IsForShelf 0 self.now.blocks (length (data_pages self.now.window)) result }
    {
        let job = job_of(found.command.cid, &found.work);
        piece(&job, self.lane, self.shelf, found.work.done)
    }
}

/// A command after its next piece ended so.
fn after_piece(command: &Command, work: &Work, ended: &PieceResult) -> Command
    requires { work.now.done + 1 < 2 ^ 32 }
    ensures { result ≡ after_piece command.now work.now ended.now.outcome }
{
    Command {
        cid: command.cid,
        status: join_status(command.status, work.op, ended),
        work: Some(Work {
            done: work.done + 1,
            ..*work
        }),
    }
}

/// The place of the first command that has a piece which isn't done.
fn first_at_work(running: &[Command], shelf: u32) -> Option<usize>
    requires shelf { 1 ≤ shelf }
    requires numbered { (i : ℕ) (d : Command) → i < length running.now → IsNumbered (slice_index_or running.now i d) }
    ensures there { IfSome result (λ place. place < length running.now) }
    ensures earlier { IfSome result (λ place. All (λ c. pieces_left shelf c ≡ 0) (take place running.now)) }
    ensures left { IfSome result (λ place. (d : Command) → 1 ≤ pieces_left shelf (slice_index_or running.now place d)) }
    ensures none { IfNone result (All (λ c. pieces_left shelf c ≡ 0) running.now) }
{
    'commands: for (place, command) in running.iter().enumerate() {
        if pieces_left(command, shelf) > 0 {
            return Some(place);
        }
    }
    None
}
