ghost use Rattle.std.specs.Prelude.{◌≡◌, ◌<◌, ◌≤◌, ◌==◌, [], IfErr, IfOk, OnErr, OnOk, false, is_err, is_none, is_ok, length, not, slice_index_or, true};
ghost use Rattle.data_queue.specs.Change.{IsChange};
ghost use Rattle.data_queue.specs.Log.{HasLog, IsLog, Posted, Takes, TakesBefore, is_head, is_lost};
ghost use Rattle.data_queue.specs.Places.{ArePlaces, queue_of};

use crate::{Change, Places};
use mig_base::OutOfMemory;
use std::alloc::Global;
use std::marker::Model;

/// No cell was free, or the mark was up. The mark is up.
#[derive(Clone, Copy, Debug, PartialEq, Eq)]
pub struct Full;

/// The value isn't a place from the head to the next place of posting.
#[derive(Clone, Copy, Debug, PartialEq, Eq)]
pub struct BadHead {
    pub value: u32,
}

/// A queue of change entries, in cells that were taken when it was made. Contracts see its cells and its places.
#[derive(Drop)]
pub struct DataQueue {
    cells: Vec<[u8; 32]>,
    places: Places,
}

impl Model for DataQueue {
    ghost use Rattle.std.specs.Prelude.{◌≡◌, length, true};
    ghost use Rattle.data_queue.specs.Log.{HasLog, QueueState};
    ghost use Rattle.data_queue.specs.Places.{ArePlaces, queue_of};

    ghost Value = { QueueState };

    ghost view = { λ q. queue_of q.places q.cells.items };

    // A live queue stands for a list of changes.
    ghost invariant = { λ q. ArePlaces (length q.cells.items) q.places
        × (q.places.live ≡ true → HasLog (queue_of q.places q.cells.items)) };
}

impl DataQueue {
    /// A queue of 2 to 65,536 cells that isn't live.
    ///
    /// # Errors
    ///
    /// `OutOfMemory` where there is no memory for them.
    pub fn make(alloc: Global, cells: u32) -> Result<DataQueue, OutOfMemory>
        requires { (2 ≤ cells) × (cells ≤ 65536) }
        ensures cells { IfOk result (λ q. length q.cells ≡ cells) }
        ensures new { IfOk result (λ q. (q.live ≡ false) × (q.marked ≡ false)) }
    {
        let mut list = Vec::with_capacity(alloc, cells as usize)?;
        for _ in 0..cells {
            list.push_reserved([0; 32]);
        }
        Ok(DataQueue {
            cells: list,
            places: Places::NONE,
        })
    }

    /// Whether the queue was created and isn't deleted. A live queue stands for the changes that were posted since.
    pub fn live(&self) -> bool
        ensures value { result ≡ self.now.live }
        ensures log { result ≡ true → HasLog self.now }
    {
        self.places.live
    }

    /// Whether an entry found no free cell since the queue was created.
    pub fn marked(&self) -> bool
        ensures { result ≡ self.now.marked }
    {
        self.places.marked
    }

    /// How many cells it has.
    pub fn size(&self) -> u32
        ensures { result ≡ length self.now.cells }
    {
        self.cells.len() as u32
    }

    /// Its places.
    pub fn places(&self) -> Places
        ensures value { queue_of result self.now.cells ≡ self.now }
        ensures sound { ArePlaces (length self.now.cells) result }
    {
        self.places
    }

    /// Its cells, and its places.
    pub fn into_parts(self) -> (Vec<[u8; 32]>, Places)
        ensures value { queue_of result.1 result.0.items ≡ self }
        ensures sound { ArePlaces (length result.0.items) result.1 }
        ensures log { result.1.live ≡ true → HasLog (queue_of result.1 result.0.items) }
    {
        let DataQueue { cells, places } = self;
        (cells, places)
    }

    /// The queue of these cells and places, which `into_parts` gave or which are like those.
    pub fn from_parts(cells: Vec<[u8; 32]>, places: Places) -> DataQueue
        requires places { ArePlaces (length cells.items) places }
        requires log { places.live ≡ true → HasLog (queue_of places cells.items) }
        ensures { result ≡ queue_of places cells.items }
    {
        DataQueue { cells, places }
    }

    /// The bytes of a cell.
    pub fn cell(&self, i: u32) -> &[u8; 32]
        requires { i < length self.now.cells }
        ensures { result.now ≡ slice_index_or self.now.cells i [] }
    {
        &self.cells[i as usize]
    }

    /// A new queue with zeroed cells and no mark, unless one is live: answers false then.
    pub fn create(&mut self) -> bool
        ensures made { result ≡ not self.old.live }
        ensures created { result ≡ true → IsLog self.new [] 0 × (self.new.marked ≡ false) × (self.new.live ≡ true) × (length self.new.cells ≡ length self.old.cells) }
        ensures kept { result ≡ false → self.new ≡ self.old }
    {
        self.places.create(&mut self.cells)
    }

    /// The queue isn't live any more; answers false where it wasn't.
    pub fn delete(&mut self) -> bool
        ensures { (result ≡ self.old.live) × (self.new ≡ record self.old { live = false }) }
    {
        let was = self.places.live;
        self.places.live = false;
        was
    }

    /// Posts an entry behind the others.
    ///
    /// # Errors
    ///
    /// `Full` exactly where the mark is up or no cell is free. The mark is up then, and nothing was posted.
    pub fn post(&mut self, c: Change) -> Result<(), Full>
        requires live { self.old.live ≡ true }
        requires change { IsChange c }
        ensures full { is_err result ≡ is_lost self.old }
        ensures posted { Posted self.old c self.new }
    {
        self.places.post(&mut self.cells, c)
    }

    /// Takes the oldest entry that isn't taken: `None` exactly where there is none.
    pub fn take(&mut self) -> Option<Change>
        requires live { self.old.live ≡ true }
        ensures none { is_none result ≡ (self.old.waiting == 0) }
        ensures taken { Takes result self.old self.new }
    {
        self.places.take(&self.cells)
    }

    /// Takes all entries before a place.
    ///
    /// # Errors
    ///
    /// `BadHead` exactly where that is no place from the head to the next place of posting, in ring order. Nothing changes
    /// then.
    pub fn set_head(&mut self, value: u32) -> Result<(), BadHead>
        requires live { self.old.live ≡ true }
        ensures accepted { is_ok result ≡ is_head value self.old }
        ensures refused { OnErr result (self.new ≡ self.old) }
        ensures told { IfErr result (λ e. e.value ≡ value) }
        ensures taken { OnOk result (TakesBefore value self.old self.new) }
    {
        self.places.set_head(&self.cells, value)
    }
}
