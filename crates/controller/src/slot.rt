// The place of a change queue that can be lent.
ghost use Rattle.std.specs.Prelude.{◌≡◌, ◌<◌, ◌≤◌, ◌==◌, ◌&&◌, [], IfNone, IfOk, IfSome, false, is_none, length, not, true};
ghost use Rattle.data_queue.specs.Change.{IsChange};
ghost use Rattle.data_queue.specs.Log.{HasLog, IsLog, Posted, Takes};
ghost use Rattle.controller.specs.Slot.{lent_queue};

use data_queue::{Change, DataQueue};
use mig_base::OutOfMemory;
use std::alloc::Global;
use std::marker::Model;
use track::Tracker;

/// Contracts see the queue, and while it is lent one that has no cells and isn't live. The calls are those of a queue.
#[derive(Drop)]
pub(crate) struct QueueSlot {
    queue: Option<DataQueue>,
}

impl Model for QueueSlot {
    ghost use Rattle.data_queue.specs.Log.{QueueState};
    ghost use Rattle.controller.specs.Slot.{queue_in};

    ghost Value = { QueueState };

    ghost view = { λ s. queue_in s.queue };
}

impl QueueSlot {
    pub(crate) fn make(alloc: Global, cells: u32) -> Result<QueueSlot, OutOfMemory>
        requires { (2 ≤ cells) × (cells ≤ 65536) }
        ensures cells { IfOk result (λ q. length q.cells ≡ cells) }
        ensures new { IfOk result (λ q. (q.live ≡ false) × (q.marked ≡ false)) }
    {
        let queue = DataQueue::make(alloc, cells)?;
        Ok(QueueSlot { queue: Some(queue) })
    }

    pub(crate) fn live(&self) -> bool
        ensures value { result ≡ self.now.live }
        ensures log { result ≡ true → HasLog self.now }
    {
        match &self.queue {
            Some(queue) => queue.live(),
            None => false,
        }
    }

    pub(crate) fn marked(&self) -> bool
        ensures { result ≡ self.now.marked }
    {
        match &self.queue {
            Some(queue) => queue.marked(),
            None => false,
        }
    }

    pub(crate) fn size(&self) -> u32
        ensures { result ≡ length self.now.cells }
    {
        match &self.queue {
            Some(queue) => queue.size(),
            None => 0,
        }
    }

    pub(crate) fn create(&mut self) -> bool
        requires { 0 < length self.old.cells }
        ensures made { result ≡ not self.old.live }
        ensures created { result ≡ true → IsLog self.new [] 0 × (self.new.marked ≡ false) × (self.new.live ≡ true) × (length self.new.cells ≡ length self.old.cells) }
        ensures kept { result ≡ false → self.new ≡ self.old }
    {
        match &mut self.queue {
            Some(queue) => queue.create(),
            None => unreachable!(),
        }
    }

    pub(crate) fn delete(&mut self) -> bool
        ensures { (result ≡ self.old.live) × (self.new ≡ record self.old { live = false }) }
    {
        match &mut self.queue {
            Some(queue) => queue.delete(),
            None => false,
        }
    }

    pub(crate) fn take(&mut self) -> Option<Change>
        requires live { self.old.live ≡ true }
        ensures none { is_none result ≡ (self.old.waiting == 0) }
        ensures taken { Takes result self.old self.new }
    {
        match &mut self.queue {
            Some(queue) => queue.take(),
            None => unreachable!(),
        }
    }

    /// Posts a change where logging is on and the queue is live.
    pub(crate) fn note(&mut self, tracker: &Tracker, c: Change)
        requires { IsChange c }
        ensures posted { (tracker.now && self.old.live) ≡ true → Posted self.old c self.new }
        ensures kept { (tracker.now && self.old.live) ≡ false → self.new ≡ self.old }
    {
        if let Some(queue) = &mut self.queue {
            tracker.note(c, queue);
        }
    }

    /// Lends the queue: `None` exactly where it isn't live, or is lent.
    pub(crate) fn lend(&mut self) -> Option<DataQueue>
        ensures none { is_none result ≡ not self.old.live }
        ensures lent { IfSome result (λ q. (q ≡ self.old) × (self.new ≡ lent_queue)) }
        ensures kept { IfNone result (self.new ≡ self.old) }
    {
        if !self.live() {
            return None;
        }
        self.queue.take()
    }

    pub(crate) fn give_back(&mut self, q: DataQueue)
        ensures { self.new ≡ q }
    {
        self.queue = Some(q);
    }
}
