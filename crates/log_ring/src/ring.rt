ghost use Rattle.std.specs.Prelude.{◌≡◌, ◌+◌, ◌<◌, ◌≤◌, [], IfErr, IfOk, IfSome, IfNone, OnErr, OnOk, false, length, slice_index, true};
ghost use Rattle.data_queue.specs.Change.{IsChange};
ghost use Rattle.log_rule.specs.Plays.{opener};
ghost use Rattle.log_ring.specs.Ends.{HasClosed};
ghost use Rattle.log_ring.specs.Seats.{AreJoined, IsIdle, Loses, Misses, Posts, Takes, view_of};
ghost use Rattle.log_ring.specs.Words.{AreWords, Fits, IsOpened};

use crate::end::{ended, last_of, write_back};
use crate::plays::{Draw, Fill, Find, Law, Look, Lose, Opened, Take};
use crate::seat::LogSeat;
use crate::words::{is_tagged, phase_at, tail_of, to_change, to_word, word_of};
use atomic_table::{Seat, Table};
use data_queue::{Change, DataQueue, Full};
use log_rule::View;
use std::alloc::Global;
use std::snapshot::Snapshot;

pub type Place = Seat<u8, View>;

/// A queue that threads share, in one word a cell and three more. Contracts see the queue as it was opened, which stays until
/// the log is closed.
#[derive(Drop)]
pub struct LogRing {
    pub table: Table<u8, View, Opened, Law, Global>,
    pub queue: DataQueue,
    pub ghost live: { (queue.live ≡ true) × (queue.marked ≡ false) },
    pub ghost bare: { table.shared.table_id.slots ≡ 0 },
    pub ghost sized: { table.shared.table_id.words ≡ length queue.cells + 3 },
    pub ghost opened: { IsOpened queue table.shared.key.cells table.shared.key.head table.shared.key.tail (λ c. slice_index table.shared.key.words.value.items (c + 3)) },
    pub ghost fits: { Fits table.shared.key.cells table.shared.key.head table.shared.key.tail },
}

impl LogRing {
    /// Opens a live queue whose mark is down.
    ///
    /// # Errors
    ///
    /// The queue as it was, where there is no memory for a word a cell and three more.
    pub fn open(alloc: Global, q: DataQueue) -> Result<(LogRing, LogSeat), DataQueue>
        requires { (q.live ≡ true) × (q.marked ≡ false) }
        ensures opened { IfOk result (λ r. r.0.queue ≡ q) }
        ensures seat { IfOk result (λ r. (r.1.badge.table_id ≡ r.0.table.shared.table_id) × (r.1.badge.id ≡ 0) × (view_of r.1.badge ≡ opener (length q.cells))) }
        ensures refused { IfErr result (λ b. b ≡ q) }
    {
        let live = q.live();
        prove!(live);
        let places = q.places();
        let cells = u64::from(q.size());
        let tail = tail_of(places, cells);
        let head = tail - u64::from(places.waiting);
        let Some(words) = first_words(alloc, &q, head, tail) else {
            return Err(q);
        };
        let about = Opened {
            cells,
            head,
            tail,
            words: Snapshot::of(&words),
        };
        match Table::of_words(alloc, words.as_slice(), &about) {
            Ok((table, seat)) => {
                let ring = LogRing { table, queue: q };
                let seat = LogSeat {
                    badge: seat.into_badge(),
                };
                Ok((ring, seat))
            }
            Err(_) => Err(q),
        }
    }

    pub(crate) fn post(&self, seat: &mut Place, c: Change) -> Result<(), Full>
        requires ring { (seat.old.table_id ≡ self.now.table.shared.table_id) × (seat.old.me.1 ≡ []) }
        requires idle { IsIdle seat.old.me.0 }
        requires change { IsChange c }
        requires budget { 0 < seat.old.me.0.budget }
        ensures same { (seat.new.table_id ≡ seat.old.table_id) × (seat.new.id ≡ seat.old.id) × (seat.new.me.1 ≡ []) }
        ensures idle { IsIdle seat.new.me.0 }
        ensures posted { OnOk result (Posts (length self.now.queue.cells) c seat.old.me.0 seat.new.me.0) }
        ensures full { OnErr result (Loses (length self.now.queue.cells) seat.old.me.0 seat.new.me.0) }
    {
        let shared = &self.table.shared;
        let cells = u64::from(self.queue.size());
        let at = shared.fetch_add::<Draw>(seat, 0, 1);
        let head = shared.load::<Look>(seat, 1);
        if at >= head + cells {
            shared.swap::<Lose>(seat, 2, 1);
            return Err(Full);
        }
        let word = to_word(c, phase_at(cells, at));
        shared.swap::<Fill>(seat, (at % cells) as usize + 3, word);
        Ok(())
    }

    pub(crate) fn take(&self, seat: &mut Place) -> Option<Change>
        requires ring { (seat.old.table_id ≡ self.now.table.shared.table_id) × (seat.old.me.1 ≡ []) }
        requires first { (seat.old.id ≡ 0) × (seat.old.me.0.cells ≡ length self.now.queue.cells) }
        requires idle { IsIdle seat.old.me.0 }
        ensures same { (seat.new.table_id ≡ seat.old.table_id) × (seat.new.id ≡ seat.old.id) × (seat.new.me.1 ≡ []) }
        ensures idle { IsIdle seat.new.me.0 }
        ensures taken { IfSome result (λ c. Takes (length self.now.queue.cells) c seat.old.me.0 seat.new.me.0) }
        ensures none { IfNone result (Misses (length self.now.queue.cells) seat.old.me.0 seat.new.me.0) }
    {
        let shared = &self.table.shared;
        let cells = u64::from(self.queue.size());
        let head = shared.load::<Look>(seat, 1);
        let word = shared.load::<Find>(seat, (head % cells) as usize + 3);
        if is_tagged(word) != phase_at(cells, head) {
            return None;
        }
        shared.fetch_add::<Take>(seat, 1, 1);
        Some(to_change(word))
    }

    /// Makes it one thread's queue again. Its cells have the entries' bytes.
    pub fn close(self, seat: LogSeat) -> DataQueue
        requires ring { seat.badge.table_id ≡ self.table.shared.table_id }
        requires first { seat.badge.id ≡ 0 }
        requires back { AreJoined (view_of seat.badge) }
        ensures { HasClosed self.queue self.table.shared.key.head self.table.shared.key.tail (view_of seat.badge) result }
    {
        let LogRing { table, queue } = self;
        let (mut cells, places) = queue.into_parts();
        let LogSeat { badge } = seat;
        let size = cells.len() as u64;
        let first = tail_of(places, size);
        let closed = table.close_with(badge.into_seat());
        let (tail, head, mark) = (closed.word(0), closed.word(1), closed.word(2));
        let last = last_of(&closed, size, head, tail);
        write_back(&closed, &mut cells, first, last);
        closed.free();
        DataQueue::from_parts(cells, ended(size, head, last, mark))
    }
}

/// The words with which a queue is opened: the tail, the head, no mark, and those of its cells.
fn first_words(alloc: Global, q: &DataQueue, head: u64, tail: u64) -> Option<Vec<u64>>
    ensures size { IfSome result (λ w. length w.items ≡ length q.now.cells + 3) }
    ensures ends { IfSome result (λ w. (slice_index w.items 0 ≡ tail) × (slice_index w.items 1 ≡ head) × (slice_index w.items 2 ≡ 0)) }
    ensures cells { IfSome result (λ w. AreWords q.now (λ c. slice_index w.items (c + 3))) }
{
    let size = q.size();
    let mut words = Vec::with_capacity(alloc, size as usize + 3).ok()?;
    words.push_reserved(tail);
    words.push_reserved(head);
    words.push_reserved(0);
    for i in 0..size {
        words.push_reserved(word_of(q.cell(i)));
    }
    Some(words)
}
