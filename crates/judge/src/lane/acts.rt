// What a guest does.
ghost use Rattle.std.specs.Prelude.{◌≡◌, ◌≢◌, ◌+◌, ◌<◌, ◌↔◌, IfNone, IfSome, IsTrue, Some, length, slice_get};
ghost use Rattle.nvm_model.specs.declared.script.Act.{Act as TheAct};
ghost use Rattle.nvm_model.specs.declared.script.Script.{Script};
ghost use Rattle.nvm_model.specs.Event.{DoesAct, MayDo, Reaps, head_of_last, untold_entries};
ghost use Rattle.nvm_model.specs.ScriptText.{IsAct};
ghost use Rattle.judge.specs.Decides.{Decides};
ghost use Rattle.judge.specs.Lane.{IsLaneOf, IsSameScript, IsSound, after_act, model_of};

use super::JudgedLane;
use lanes::{entry_of, write_act};
use nvm_model::{Act, Completion};

impl JudgedLane {
    /// Does the guest's n-th act, if it is the next one and can be done: whether it is.
    pub(super) fn act(&mut self, n: u32) -> bool
        requires sound { IsSound self.old }
        ensures step { (s : Script) → IsLaneOf s self.old → Decides result (DoesAct s self.old.lane n (model_of self.old)) (model_of self.new) }
        ensures same { IsSameScript self.old self.new }
        ensures sound { IsSound self.new }
    {
        let Some(act) = self.due_act(n) else {
            return false;
        };
        if !self.may_do(&act) {
            return false;
        }
        self.do_act(&act);
        true
    }

    /// The next act, if it has this number.
    fn due_act(&self, n: u32) -> Option<Act>
        requires sound { IsSound self.now }
        ensures due { IfSome result (λ act. slice_get self.now.acts.items self.now.done ≡ Some act) }
        ensures number { IfSome result (λ act. n ≡ self.now.done + 1) }
        ensures is_act { IfSome result (IsAct self.now.set.pages) }
        ensures none { IfNone result ((act : TheAct) → slice_get self.now.acts.items self.now.done ≡ Some act → n ≢ self.now.done + 1) }
    {
        if n as usize != self.done + 1 {
            return None;
        }
        self.acts.get(self.done).copied()
    }

    /// Whether the guest can do an act now.
    fn may_do(&self, act: &Act) -> bool
        requires { IsSound self.now }
        ensures { IsTrue result ↔ MayDo self.now.set act.now (model_of self.now) }
    {
        match act {
            Act::Submit { .. } | Act::Raw { .. } => {
                self.untold_entries() < usize::from(self.set.sq) - 1
            }
            Act::Wait => self.is_quiet(),
            Act::Fill { .. } | Act::Poke { .. } | Act::List { .. } | Act::Idle => true,
        }
    }

    /// How many entries were submitted of which the guest doesn't know that they were fetched.
    fn untold_entries(&self) -> usize
        requires { IsSound self.now }
        ensures { result ≡ untold_entries self.now.set.sq (model_of self.now) }
    {
        let sq = usize::from(self.set.sq);
        (self.submitted.len() + sq).saturating_sub(self.head_of_last() as usize) % sq
    }

    /// The submission queue's head that the completion told which was reaped last, and 0 where none was.
    fn head_of_last(&self) -> u32
        requires { IsSound self.now }
        ensures { result ≡ head_of_last self.now.posted.items self.now.reaped }
    {
        match self.reaped.checked_sub(1) {
            None => 0,
            Some(last) => self.posted[last].head,
        }
    }

    /// Does an act, which is there.
    fn do_act(&mut self, act: &Act)
        requires sound { IsSound self.old }
        requires there { self.old.done < length self.old.acts.items }
        requires is_act { IsAct self.old.set.pages act.now }
        ensures lane { model_of self.new ≡ after_act self.old.lane act.now (model_of self.old) }
        ensures same { IsSameScript self.old self.new }
        ensures sound { IsSound self.new }
    {
        write_act(self.lane, act, &mut self.window);
        if let Some(entry) = entry_of(self.lane, act) {
            self.submitted.push_reserved(entry);
        }
        self.done += 1;
    }

    /// Takes the oldest completion that wasn't taken, if it is this one: whether it is.
    pub(super) fn reap(&mut self, completion: &Completion) -> bool
        requires sound { IsSound self.old }
        ensures step { Decides result (Reaps completion.now (model_of self.old)) (model_of self.new) }
        ensures same { IsSameScript self.old self.new }
        ensures sound { IsSound self.new }
    {
        match self.posted.get(self.reaped) {
            Some(oldest) if oldest == completion => {
                self.reaped += 1;
                true
            }
            _ => false,
        }
    }
}
