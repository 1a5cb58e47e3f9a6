// A queue whose cells are lent to each call.
ghost use Rattle.std.specs.Prelude.{◌≡◌, ◌+◌, ◌<◌, ◌≤◌, ◌==◌, ◌&&◌, [], ℕ, List, IfErr, OnErr, OnOk, cond, false, is_err, is_none, is_ok, length, nat_le, nat_lt, not, replicate, slice_get, slice_index_or, Some, true};
ghost use Rattle.data_queue.specs.declared.change.Change.{Change};
ghost use Rattle.data_queue.specs.Change.{IsChange, change_of};
ghost use Rattle.data_queue.specs.Log.{IsLog, Posted, Takes, TakesBefore, is_head, is_lost};
ghost use Rattle.data_queue.specs.Places.{ArePlaces, queue_of};
ghost use Rattle.nvm_model.specs.Ring.{places_between};

use crate::Change;
use crate::queue::{BadHead, Full};

/// The places of a queue of from 2 to 65,536 cells of 32 bytes, which stand elsewhere: that of the oldest entry that
/// isn't taken, that of the next one, how many lie between, the phase tag of the next one, whether the mark is up,
/// and whether the queue was created and isn't deleted.
#[derive(Clone, Copy)]
pub struct Places {
    pub head: u32,
    pub next: u32,
    pub waiting: u32,
    pub phase: bool,
    pub marked: bool,
    pub live: bool,
}

impl Places {
    /// Those of a queue that isn't live.
    pub const NONE: Places = Places {
        head: 0,
        next: 0,
        waiting: 0,
        phase: true,
        marked: false,
        live: false,
    };

    /// A new queue with zeroed cells and no mark, unless one is live: answers false then.
    pub fn create(&mut self, cells: &mut [[u8; 32]]) -> bool
        requires { (2 ≤ length cells.old) × (length cells.old ≤ 65536) }
        ensures made { result ≡ not self.old.live }
        ensures created { result ≡ true → IsLog (queue_of self.new cells.new) [] 0
            × (self.new.marked ≡ false) × (self.new.live ≡ true) × ArePlaces (length cells.new) self.new }
        ensures kept { result ≡ false → (self.new ≡ self.old) × (cells.new ≡ cells.old) }
    {
        if self.live {
            return false;
        }
        zero_cells(cells);
        *self = Places {
            head: 0,
            next: 0,
            waiting: 0,
            phase: true,
            marked: false,
            live: true,
        };
        true
    }

    /// Posts an entry behind the others.
    ///
    /// # Errors
    ///
    /// `Full` exactly where the mark is up or no cell is free. The mark is up then, and nothing was posted.
    pub fn post(&mut self, cells: &mut [[u8; 32]], c: Change) -> Result<(), Full>
        requires places { ArePlaces (length cells.old) self.old }
        requires live { self.old.live ≡ true }
        requires change { IsChange c }
        ensures full { is_err result ≡ is_lost (queue_of self.old cells.old) }
        ensures posted { Posted (queue_of self.old cells.old) c (queue_of self.new cells.new) }
        ensures sound { ArePlaces (length cells.new) self.new }
    {
        let size = cells.len() as u32;
        if self.marked || self.waiting == size {
            self.marked = true;
            return Err(Full);
        }
        cells[self.next as usize] = c.to_bytes(self.phase);
        self.next = (self.next + 1) % size;
        self.phase = next_phase(self.next, self.phase);
        self.waiting += 1;
        Ok(())
    }

    /// Takes the oldest entry that isn't taken: `None` exactly where there is none.
    pub fn take(&mut self, cells: &[[u8; 32]]) -> Option<Change>
        requires places { ArePlaces (length cells.now) self.old }
        requires live { self.old.live ≡ true }
        ensures none { is_none result ≡ (self.old.waiting == 0) }
        ensures taken { Takes result (queue_of self.old cells.now) (queue_of self.new cells.now) }
        ensures sound { ArePlaces (length cells.now) self.new }
    {
        if self.waiting == 0 {
            return None;
        }
        let change = oldest(*self, cells);
        self.head = (self.head + 1) % cells.len() as u32;
        self.waiting -= 1;
        Some(change)
    }

    /// Takes all entries before a place.
    ///
    /// # Errors
    ///
    /// `BadHead` exactly where that is no place from the head to the next place of posting, in ring order. Nothing
    /// changes then.
    pub fn set_head(&mut self, cells: &[[u8; 32]], value: u32) -> Result<(), BadHead>
        requires places { ArePlaces (length cells.now) self.old }
        requires live { self.old.live ≡ true }
        ensures accepted { is_ok result ≡ is_head value (queue_of self.old cells.now) }
        ensures refused { OnErr result (self.new ≡ self.old) }
        ensures told { IfErr result (λ e. e.value ≡ value) }
        ensures taken { OnOk result (TakesBefore value (queue_of self.old cells.now) (queue_of self.new cells.now)) }
        ensures sound { ArePlaces (length cells.now) self.new }
    {
        let size = cells.len() as u32;
        if value >= size || between(size, self.head, value) > self.waiting {
            return Err(BadHead { value });
        }
        self.waiting -= between(size, self.head, value);
        self.head = value;
        Ok(())
    }
}

/// How many places lie from one to the other, in ring order.
fn between(size: u32, head: u32, value: u32) -> u32
    requires size { size ≤ 65536 }
    requires head { head < size }
    requires value { value < size }
    ensures { result ≡ places_between size head value }
{
    (value + size - head) % size
}

/// The oldest entry that isn't taken.
fn oldest(places: Places, cells: &[[u8; 32]]) -> Change
    requires places { ArePlaces (length cells.now) places }
    ensures cell { result ≡ change_of (slice_index_or cells.now places.head []) }
    ensures log { 0 < places.waiting → (posted : List Change) (taken : ℕ)
        → IsLog (queue_of places cells.now) posted taken → slice_get posted taken ≡ Some result }
{
    Change::of_bytes(&cells[places.head as usize])
}

/// The phase tag turns over where a pass begins.
fn next_phase(place: u32, phase: bool) -> bool
    ensures { result ≡ cond (place == 0) (not phase) phase }
{
    if place == 0 { !phase } else { phase }
}

/// All cells become zeroes.
fn zero_cells(cells: &mut [[u8; 32]])
    ensures zeroes { (i : ℕ) → i < length cells.old → slice_index_or cells.new i [] ≡ replicate 32 0 }
{
    for i in 0..cells.len() {
        cells[i] = [0; 32];
    }
}
