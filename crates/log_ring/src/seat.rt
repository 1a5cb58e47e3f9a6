ghost use Rattle.std.specs.Prelude.{◌≡◌, ◌<◌, IfSome, IfNone, OnErr, OnOk, length};
ghost use Rattle.data_queue.specs.Change.{IsChange};
ghost use Rattle.log_rule.specs.Plays.{joined, split_left, split_right};
ghost use Rattle.log_ring.specs.Seats.{IsIdle, Loses, Misses, Posts, Takes, view_of};

use crate::plays::{Cut, Glue};
use crate::ring::{LogRing, Place};
use atomic_table::Badge;
use data_queue::{Change, Full};
use log_rule::View;
use std::mem;

/// The right to post to one log, which a thread holds. The first seat alone takes, splits others off and joins them.
#[derive(Drop)]
pub struct LogSeat {
    pub badge: Badge<View>,
    pub ghost one: { length badge.views ≡ 1 },
    pub ghost idle: { IsIdle (view_of badge) },
}

impl LogSeat {
    /// Makes a poster's seat. A log has eight at most.
    pub fn split(&mut self, ring: &LogRing) -> LogSeat
        requires ring { self.old.badge.table_id ≡ ring.now.table.shared.table_id }
        requires first { self.old.badge.id ≡ 0 }
        requires few { 0 < (view_of self.old.badge).seats }
        ensures same { (self.new.badge.table_id ≡ self.old.badge.table_id) × (self.new.badge.id ≡ 0) }
        ensures view { view_of self.new.badge ≡ split_left (view_of self.old.badge) }
        ensures new { (result.badge.table_id ≡ self.old.badge.table_id) × (view_of result.badge ≡ split_right (view_of self.old.badge)) }
    {
        let mut seat: Place = mem::replace(&mut self.badge, Badge::blank()).into_seat();
        let new = ring.table.shared.split_seat::<Cut>(&mut seat);
        self.badge = seat.into_badge();
        LogSeat {
            badge: new.into_badge(),
        }
    }

    /// Takes a poster's seat back.
    pub fn join(&mut self, ring: &LogRing, other: LogSeat)
        requires ring { (self.old.badge.table_id ≡ ring.now.table.shared.table_id) × (other.badge.table_id ≡ ring.now.table.shared.table_id) }
        requires first { self.old.badge.id ≡ 0 }
        ensures same { (self.new.badge.table_id ≡ self.old.badge.table_id) × (self.new.badge.id ≡ 0) }
        ensures view { view_of self.new.badge ≡ joined (view_of self.old.badge) (view_of other.badge) }
    {
        let mut seat: Place = mem::replace(&mut self.badge, Badge::blank()).into_seat();
        let LogSeat { badge } = other;
        let other: Place = badge.into_seat();
        ring.table.shared.join_seat::<Glue>(&mut seat, other);
        self.badge = seat.into_badge();
    }

    /// Posts an entry, by three atomic steps: a position is drawn, the head loaded, and the entry written.
    ///
    /// # Errors
    ///
    /// `Full` exactly where the head that was loaded leaves no cell for the position that was drawn. The mark is up then,
    /// the position is given up, and nothing was posted.
    pub fn post(&mut self, ring: &LogRing, c: Change) -> Result<(), Full>
        requires ring { self.old.badge.table_id ≡ ring.now.table.shared.table_id }
        requires change { IsChange c }
        requires budget { 0 < (view_of self.old.badge).budget }
        ensures same { (self.new.badge.table_id ≡ self.old.badge.table_id) × (self.new.badge.id ≡ self.old.badge.id) }
        ensures posted { OnOk result (Posts (length ring.now.queue.cells) c (view_of self.old.badge) (view_of self.new.badge)) }
        ensures full { OnErr result (Loses (length ring.now.queue.cells) (view_of self.old.badge) (view_of self.new.badge)) }
    {
        let mut seat: Place = mem::replace(&mut self.badge, Badge::blank()).into_seat();
        let done = ring.post(&mut seat, c);
        self.badge = seat.into_badge();
        done
    }

    /// Takes the entry at the head, by three atomic steps: the head is loaded, then its cell, and the head goes on. `None`
    /// exactly where the cell's word has the phase tag of the pass before, so that no entry stands there yet.
    pub fn take(&mut self, ring: &LogRing) -> Option<Change>
        requires ring { self.old.badge.table_id ≡ ring.now.table.shared.table_id }
        requires first { (self.old.badge.id ≡ 0) × ((view_of self.old.badge).cells ≡ length ring.now.queue.cells) }
        ensures same { (self.new.badge.table_id ≡ self.old.badge.table_id) × (self.new.badge.id ≡ 0) }
        ensures taken { IfSome result (λ c. Takes (length ring.now.queue.cells) c (view_of self.old.badge) (view_of self.new.badge)) }
        ensures none { IfNone result (Misses (length ring.now.queue.cells) (view_of self.old.badge) (view_of self.new.badge)) }
    {
        let mut seat: Place = mem::replace(&mut self.badge, Badge::blank()).into_seat();
        let found = ring.take(&mut seat);
        self.badge = seat.into_badge();
        found
    }
}
