// A user data migration queue, over cells that C owns.
ghost use Rattle.std.specs.Prelude.{◌≡◌, ◌≢◌, ◌<◌, ◌≤◌, ◌↔◌, ◌==◌, [], Bool, IsTrue, cond, false, length, true};
ghost use Rattle.data_queue.specs.declared.change.Change.{Change as TheChange};
ghost use Rattle.data_queue.specs.Change.{IsChange, change_bytes};
ghost use Rattle.data_queue.specs.Log.{IsLog, Posted, Takes, TakesBefore, is_lost};
ghost use Rattle.nvm_model.specs.Ring.{places_between};
ghost use Rattle.nvmigrate_c.specs.Queues.{IsQueue, change_in, change_told, places_in, queue_in};

use crate::code::{BAD_DOORBELL, BAD_FIELD, BAD_QUEUE, FULL, LIVE, NONE, NOT_LIVE, OK};
use crate::entry::flag;
use data_queue::{Change, Places};
use mig_base::Span;

/// Blocks that were written: 1 to 64 of them, the first below 131,072.
#[repr(C)]
#[derive(Clone, Copy)]
pub struct Entry {
    pub first: u32,
    pub count: u32,
}

/// The places of a queue of from 2 to 65,536 cells: that of the oldest entry that isn't taken, that of the next one,
/// how many entries wait from the one to the other, the phase tag of the next one, whether the mark is up, and whether
/// the queue was created and isn't deleted.
#[repr(C)]
#[derive(Clone, Copy)]
pub struct Queue {
    pub head: u32,
    pub next: u32,
    pub waiting: u32,
    pub phase: u8,
    pub marked: u8,
    pub live: u8,
}

impl Entry {
    fn of(change: Change) -> Entry
        ensures { change_in result ≡ change }
    {
        Entry {
            first: change.span.first,
            count: change.span.count,
        }
    }

    fn change(self) -> Change
        ensures { result ≡ change_in self }
    {
        Change {
            span: Span {
                first: self.first,
                count: self.count,
            },
        }
    }
}

impl Queue {
    fn of(places: Places) -> Queue
        ensures value { places_in result ≡ places }
        ensures phase { result.phase ≤ 1 }
        ensures marked { result.marked ≤ 1 }
        ensures live { result.live ≤ 1 }
    {
        Queue {
            head: places.head,
            next: places.next,
            waiting: places.waiting,
            phase: flag(places.phase),
            marked: flag(places.marked),
            live: flag(places.live),
        }
    }

    fn places(self) -> Places
        ensures { result ≡ places_in self }
    {
        Places {
            head: self.head,
            next: self.next,
            waiting: self.waiting,
            phase: self.phase == 1,
            marked: self.marked == 1,
            live: self.live == 1,
        }
    }

    /// Whether these are the places of a queue of so many cells.
    fn is_queue(self, cells: usize) -> bool
        ensures { IsTrue result ↔ IsQueue cells self }
    {
        cells >= 2
            && cells <= 65_536
            && (self.head as usize) < cells
            && (self.next as usize) < cells
            && self.waiting as usize <= cells
            && self.next as usize == (self.head as usize + self.waiting as usize) % cells
            && self.phase <= 1
            && self.marked <= 1
            && self.live <= 1
    }
}

/// The 32 bytes of an entry with that phase tag, 0 or 1.
///
/// # Errors
///
/// `BAD_FIELD` exactly where the phase tag is neither, or the entry names other blocks than it may; `out` stays as it
/// was.
#[unsafe(no_mangle)]
pub extern "C" fn nvmigrate_change_to_bytes(entry: &Entry, phase: u8, out: &mut [u8; 32]) -> u32
    ensures done { phase ≤ 1 → IsChange (change_in entry.now) → result ≡ OK }
    ensures tag { 1 < phase → result ≡ BAD_FIELD }
    ensures bad { (IsChange (change_in entry.now) → ⊥) → result ≡ BAD_FIELD }
    ensures bytes { result ≡ OK → out.new ≡ change_bytes (change_in entry.now) (phase == 1) }
    ensures same { result ≢ OK → out.new ≡ out.old }
{
    let change = entry.change();
    if phase > 1 {
        return BAD_FIELD;
    }
    if !change.is_in_range() {
        return BAD_FIELD;
    }
    *out = change.to_bytes(phase == 1);
    OK
}

/// The blocks that an entry of 32 bytes names, and its phase tag.
///
/// # Errors
///
/// `BAD_FIELD` exactly where the bytes are no entry: a byte is another than its layout asks for, or a number is out of
/// its range. Then `out` and `phase` stay as they were.
#[unsafe(no_mangle)]
pub extern "C" fn nvmigrate_change_from_bytes(b: &[u8; 32], out: &mut Entry, phase: &mut u8) -> u32
    ensures read { result ≡ OK → IsChange (change_in out.new) × (phase.new ≤ 1)
        × (b.now ≡ change_bytes (change_in out.new) (phase.new == 1)) }
    ensures back { (c : TheChange) (tag : Bool) → IsChange c → change_bytes c tag ≡ b.now
        → (result ≡ OK) × (change_in out.new ≡ c) × (phase.new ≡ cond tag 1 0) }
    ensures bad { result ≢ OK → result ≡ BAD_FIELD }
    ensures same { result ≢ OK → (out.new ≡ out.old) × (phase.new ≡ phase.old) }
{
    let Some((change, tag)) = Change::parse(b) else {
        return BAD_FIELD;
    };
    *out = Entry::of(change);
    *phase = flag(tag);
    OK
}

/// The struct of a queue that isn't live, whatever it was before.
#[unsafe(no_mangle)]
pub extern "C" fn nvmigrate_queue_init(queue: &mut Queue)
    ensures { queue.new ≡ record { head = 0; next = 0; waiting = 0; phase = 1; marked = 0; live = 0 } }
{
    *queue = Queue::of(Places::NONE);
}

/// A new queue with zeroed cells and no mark.
///
/// # Errors
///
/// `BAD_QUEUE` exactly where there are fewer than 2 cells, more than 65,536, or `live` is neither 0 nor 1; else
/// `LIVE` exactly where it is 1. Nothing changes then.
#[unsafe(no_mangle)]
pub extern "C" fn nvmigrate_queue_create(queue: &mut Queue, cells: &mut [[u8; 32]]) -> u32
    ensures few { length cells.old < 2 → result ≡ BAD_QUEUE }
    ensures many { 65536 < length cells.old → result ≡ BAD_QUEUE }
    ensures bad { 1 < queue.old.live → result ≡ BAD_QUEUE }
    ensures live { 2 ≤ length cells.old → length cells.old ≤ 65536 → queue.old.live ≡ 1 → result ≡ LIVE }
    ensures done { 2 ≤ length cells.old → length cells.old ≤ 65536 → queue.old.live ≡ 0 → result ≡ OK }
    ensures empty { result ≡ OK → IsLog (queue_in queue.new cells.new) [] 0 }
    ensures unmarked { result ≡ OK → queue.new.marked ≡ 0 }
    ensures sound { result ≡ OK → IsQueue (length cells.new) queue.new }
    ensures made { result ≡ OK → queue.new.live ≡ 1 }
    ensures same { result ≢ OK → (queue.new ≡ queue.old) × (cells.new ≡ cells.old) }
{
    if cells.len() < 2 || cells.len() > 65_536 || queue.live > 1 {
        return BAD_QUEUE;
    }
    let mut places = queue.places();
    if !places.create(cells) {
        return LIVE;
    }
    *queue = Queue::of(places);
    OK
}

/// The queue isn't live any more.
///
/// # Errors
///
/// `NOT_LIVE` exactly where `live` is 0, `BAD_QUEUE` exactly where it is neither 0 nor 1. Nothing changes then.
#[unsafe(no_mangle)]
pub extern "C" fn nvmigrate_queue_delete(queue: &mut Queue) -> u32
    ensures done { queue.old.live ≡ 1 → (result ≡ OK) × (queue.new ≡ record queue.old { live = 0 }) }
    ensures idle { queue.old.live ≡ 0 → result ≡ NOT_LIVE }
    ensures bad { 1 < queue.old.live → result ≡ BAD_QUEUE }
    ensures same { result ≢ OK → queue.new ≡ queue.old }
{
    if queue.live > 1 {
        return BAD_QUEUE;
    }
    if queue.live == 0 {
        return NOT_LIVE;
    }
    queue.live = 0;
    OK
}

/// Posts an entry behind the others.
///
/// # Errors
///
/// `BAD_QUEUE` exactly where the struct is none of a queue of so many cells; else `NOT_LIVE` exactly where it isn't
/// live; else `BAD_FIELD` exactly where the entry names other blocks than it may. Nothing changes then. Else `FULL`
/// exactly where the mark is up or no cell is free: the mark is up then, and nothing was posted.
#[unsafe(no_mangle)]
pub extern "C" fn nvmigrate_queue_post(
    queue: &mut Queue,
    cells: &mut [[u8; 32]],
    entry: &Entry,
) -> u32
    ensures bad { (IsQueue (length cells.old) queue.old → ⊥) → result ≡ BAD_QUEUE }
    ensures idle { IsQueue (length cells.old) queue.old → queue.old.live ≡ 0 → result ≡ NOT_LIVE }
    ensures field { IsQueue (length cells.old) queue.old → queue.old.live ≡ 1 → (IsChange (change_in entry.now) → ⊥)
        → result ≡ BAD_FIELD }
    ensures done { IsQueue (length cells.old) queue.old → queue.old.live ≡ 1 → IsChange (change_in entry.now)
        → is_lost (queue_in queue.old cells.old) ≡ false → result ≡ OK }
    ensures full { IsQueue (length cells.old) queue.old → queue.old.live ≡ 1 → IsChange (change_in entry.now)
        → is_lost (queue_in queue.old cells.old) ≡ true → result ≡ FULL }
    ensures posted { IsQueue (length cells.old) queue.old → queue.old.live ≡ 1 → IsChange (change_in entry.now)
        → Posted (queue_in queue.old cells.old) (change_in entry.now) (queue_in queue.new cells.new) }
    ensures sound { IsQueue (length cells.old) queue.old → IsQueue (length cells.new) queue.new }
    ensures same { result ≢ OK → result ≢ FULL → (queue.new ≡ queue.old) × (cells.new ≡ cells.old) }
{
    if !queue.is_queue(cells.len()) {
        return BAD_QUEUE;
    }
    if queue.live == 0 {
        return NOT_LIVE;
    }
    let change = entry.change();
    if !change.is_in_range() {
        return BAD_FIELD;
    }
    let mut places = queue.places();
    let posted = places.post(cells, change);
    *queue = Queue::of(places);
    if posted.is_err() { FULL } else { OK }
}

/// Takes the oldest entry that isn't taken.
///
/// # Errors
///
/// `BAD_QUEUE` exactly where the struct is none of a queue of so many cells; else `NOT_LIVE` exactly where it isn't
/// live; else `NONE` exactly where no entry waits. Nothing changes then.
#[unsafe(no_mangle)]
pub extern "C" fn nvmigrate_queue_take(
    queue: &mut Queue,
    cells: &[[u8; 32]],
    out: &mut Entry,
) -> u32
    ensures bad { (IsQueue (length cells.now) queue.old → ⊥) → result ≡ BAD_QUEUE }
    ensures idle { IsQueue (length cells.now) queue.old → queue.old.live ≡ 0 → result ≡ NOT_LIVE }
    ensures none { IsQueue (length cells.now) queue.old → queue.old.live ≡ 1 → queue.old.waiting ≡ 0 → result ≡ NONE }
    ensures some { IsQueue (length cells.now) queue.old → queue.old.live ≡ 1 → queue.old.waiting ≢ 0 → result ≡ OK }
    ensures taken { IsQueue (length cells.now) queue.old → queue.old.live ≡ 1
        → Takes (change_told result out.new) (queue_in queue.old cells.now) (queue_in queue.new cells.now) }
    ensures sound { IsQueue (length cells.now) queue.old → IsQueue (length cells.now) queue.new }
    ensures same { result ≢ OK → (queue.new ≡ queue.old) × (out.new ≡ out.old) }
{
    if !queue.is_queue(cells.len()) {
        return BAD_QUEUE;
    }
    if queue.live == 0 {
        return NOT_LIVE;
    }
    let mut places = queue.places();
    let Some(change) = places.take(cells) else {
        return NONE;
    };
    *out = Entry::of(change);
    *queue = Queue::of(places);
    OK
}

/// Takes all entries before a place.
///
/// # Errors
///
/// `BAD_QUEUE` exactly where the struct is none of a queue of so many cells; else `NOT_LIVE` exactly where it isn't
/// live; else `BAD_DOORBELL` exactly where that is no place from the head to the next place of posting, in ring
/// order. Nothing changes then.
#[unsafe(no_mangle)]
pub extern "C" fn nvmigrate_queue_set_head(queue: &mut Queue, cells: &[[u8; 32]], value: u32) -> u32
    ensures bad { (IsQueue (length cells.now) queue.old → ⊥) → result ≡ BAD_QUEUE }
    ensures idle { IsQueue (length cells.now) queue.old → queue.old.live ≡ 0 → result ≡ NOT_LIVE }
    ensures high { IsQueue (length cells.now) queue.old → queue.old.live ≡ 1 → length cells.now ≤ value
        → result ≡ BAD_DOORBELL }
    ensures past { IsQueue (length cells.now) queue.old → queue.old.live ≡ 1
        → queue.old.waiting < places_between (length cells.now) queue.old.head value → result ≡ BAD_DOORBELL }
    ensures accepted { IsQueue (length cells.now) queue.old → queue.old.live ≡ 1 → value < length cells.now
        → places_between (length cells.now) queue.old.head value ≤ queue.old.waiting → result ≡ OK }
    ensures taken { result ≡ OK
        → TakesBefore value (queue_in queue.old cells.now) (queue_in queue.new cells.now) }
    ensures sound { IsQueue (length cells.now) queue.old → IsQueue (length cells.now) queue.new }
    ensures same { result ≢ OK → queue.new ≡ queue.old }
{
    if !queue.is_queue(cells.len()) {
        return BAD_QUEUE;
    }
    if queue.live == 0 {
        return NOT_LIVE;
    }
    let mut places = queue.places();
    let Ok(()) = places.set_head(cells, value) else {
        return BAD_DOORBELL;
    };
    *queue = Queue::of(places);
    OK
}
