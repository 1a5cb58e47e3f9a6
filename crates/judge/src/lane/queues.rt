// What a controller does with commands: it fetches them, and posts their completions.
ghost use Rattle.std.specs.Prelude.{◌≡◌, ◌↔◌, IfSome, IsTrue, length, slice_get};
ghost use Rattle.nvm_model.specs.declared.script.Script.{Script};
ghost use Rattle.nvm_model.specs.Check.{checked_command};
ghost use Rattle.nvm_model.specs.Event.{Fetches, Posts, phase_of};
ghost use Rattle.judge.specs.Decides.{Decides};
ghost use Rattle.judge.specs.Lane.{HasPlace, IsDoable, IsLaneOf, IsSameScript, IsSound, model_of};

use super::JudgedLane;
use crate::command::{command_of, pieces_left};
use nvm_model::{Command, Completion};
use nvm_values::{Sqe, Status};

impl JudgedLane {
    /// Fetches the oldest entry that wasn't fetched, if there is room for its completion, and its checks say this: whether
    /// it is.
    pub(super) fn fetch(&mut self, cid: u16, status: Status, pieces: u32) -> bool
        requires sound { IsSound self.old }
        ensures step { (s : Script) → IsLaneOf s self.old → Decides result (Fetches s self.old.lane cid status pieces (model_of self.old)) (model_of self.new) }
        ensures same { IsSameScript self.old self.new }
        ensures sound { IsSound self.new }
    {
        if !self.has_room() {
            return false;
        }
        let Some(entry) = self.oldest_entry() else {
            return false;
        };
        let command = self.checked(&entry);
        if command.cid != cid
            || command.status != status
            || pieces_left(&command, self.shelf) != pieces
        {
            return false;
        }
        self.commands.push_reserved(command);
        self.cids.push_reserved(command.cid);
        true
    }

    /// The oldest entry that wasn't fetched.
    fn oldest_entry(&self) -> Option<Sqe>
        ensures { result ≡ slice_get self.now.submitted.items (length self.now.commands.items) }
    {
        self.submitted.get(self.commands.len()).copied()
    }

    /// Whether the completion queue has room for one more completion than the fetched commands need.
    fn has_room(&self) -> bool
        requires { IsSound self.now }
        ensures { IsTrue result ↔ HasPlace self.now.set.cq (model_of self.now) }
    {
        self.commands.len() - self.reaped < usize::from(self.set.cq) - 1
    }

    /// The command that a fetch of the entry makes.
    fn checked(&self, entry: &Sqe) -> Command
        requires { IsSound self.now }
        ensures value { result ≡ checked_command self.now.blocks self.now.lane (model_of self.now).pages (model_of self.now).running entry.now }
        ensures doable { IfSome result.work (IsDoable self.now.blocks self.now.set.pages) }
    {
        let busy = &self.cids[self.posted.len()..];
        command_of(
            entry.cid,
            &nvm_cmd::check(entry, busy, self.blocks, &self.window),
        )
    }

    /// Posts the oldest command's completion, if no piece of it is left, and it is this one: whether it is.
    pub(super) fn post(&mut self, cid: u16, status: Status) -> bool
        requires sound { IsSound self.old }
        ensures step { (s : Script) → IsLaneOf s self.old → Decides result (Posts s self.old.lane cid status (model_of self.old)) (model_of self.new) }
        ensures same { IsSameScript self.old self.new }
        ensures sound { IsSound self.new }
    {
        let Some(command) = self.commands.get(self.posted.len()) else {
            return false;
        };
        if pieces_left(command, self.shelf) != 0 || command.cid != cid || command.status != status {
            return false;
        }
        let completion = Completion {
            cid,
            status,
            head: (self.commands.len() % usize::from(self.set.sq)) as u32,
            phase: self.next_phase(),
        };
        self.posted.push_reserved(completion);
        true
    }

    /// The phase tag of the next completion.
    fn next_phase(&self) -> bool
        requires { IsSound self.now }
        ensures { result ≡ phase_of self.now.set.cq (length self.now.posted.items) }
    {
        (self.posted.len() / usize::from(self.set.cq)) % 2 == 0
    }
}
