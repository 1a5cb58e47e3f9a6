//! Eight threads post to a log while one takes from it, round after round. Each entry names its thread and its number.
ghost use Rattle.std.specs.Prelude.{◌≡◌, ◌+◌, ◌<◌, ◌≤◌, IfOk, false, length, true};
ghost use denote.Param.Send.{IsSync};
ghost use Rattle.log_ring.specs.Seats.{view_of};
ghost use Rattle.log_tests.specs.Joined.{Settles};

use crate::entries::{change, live_queue};
use data_queue::{Change, DataQueue, Full};
use log_ring::{LogRing, LogSeat};
use std::alloc::Global;
use std::process::Abort;
use std::test::Fail;
use std::thread;
use std::thread::{Threads, join};

const POSTS: u32 = 100;

const TAKES: u32 = 1000;

/// What one round came to.
#[derive(Clone, Copy)]
struct Tally {
    sent: u32,
    refused: u32,
    /// How many entries of each thread were taken.
    taken: [u32; 8],
    /// Each thread's entries came in its order, and each once.
    in_order: bool,
}

impl Tally {
    const NONE: Tally = Tally {
        sent: 0,
        refused: 0,
        taken: [0; 8],
        in_order: true,
    };

    fn see(&mut self, c: Change) {
        let poster = c.span.first / 1000;
        let number = c.span.first % 1000;
        if poster >= 8 || self.taken[poster as usize] != number {
            self.in_order = false;
            return;
        }
        self.taken[poster as usize] = number + 1;
    }

    fn count(&self) -> u32 {
        self.taken.iter().fold(0, |a: u32, n| a.saturating_add(*n))
    }
}

/// What a thread posted, and how often it was refused.
#[derive(Drop)]
struct Sent {
    seat: LogSeat,
    sent: u32,
    refused: u32,
}

fn post_all(ring: &LogRing, seat: LogSeat, poster: u32) -> Sent
    requires ring { seat.badge.table_id ≡ ring.now.table.shared.table_id }
    requires budget { 100 ≤ (view_of seat.badge).budget }
    requires poster { poster < 8 }
    ensures same { (result.seat.badge.table_id ≡ seat.badge.table_id) × ((view_of result.seat.badge).number ≡ (view_of seat.badge).number) }
{
    let mut all = Sent {
        seat,
        sent: 0,
        refused: 0,
    };
    for i in 0..POSTS {
        match all.seat.post(ring, change(poster * 1000 + i)) {
            Ok(()) => all.sent += 1,
            Err(Full) => all.refused += 1,
        }
    }
    all
}

/// What the first seat has, and what it took.
#[derive(Drop)]
struct Took {
    seat: LogSeat,
    tally: Tally,
}

fn take_some(ring: &LogRing, seat: LogSeat) -> Took
    requires ring { seat.badge.table_id ≡ ring.now.table.shared.table_id }
    requires first { (seat.badge.id ≡ 0) × ((view_of seat.badge).cells ≡ length ring.now.queue.cells) }
    ensures same { (result.seat.badge.table_id ≡ seat.badge.table_id) × (result.seat.badge.id ≡ 0) }
    ensures settles { Settles 0 (view_of seat.badge) (view_of result.seat.badge) }
{
    let mut all = Took {
        seat,
        tally: Tally::NONE,
    };
    for _ in 0..TAKES {
        match all.seat.take(ring) {
            Some(c) => all.tally.see(c),
            None => thread::yield_now(),
        }
    }
    all
}

/// So many threads post, while the last one takes.
fn run<R: Threads + Sync>(rt: &R, ring: &LogRing, mut seat: LogSeat, posters: u32) -> Took
    requires ring { seat.badge.table_id ≡ ring.now.table.shared.table_id }
    requires first { (seat.badge.id ≡ 0) × ((view_of seat.badge).cells ≡ length ring.now.queue.cells) }
    requires posters { (posters ≤ 8) × (posters ≤ (view_of seat.badge).seats) }
    ensures same { (result.seat.badge.table_id ≡ seat.badge.table_id) × (result.seat.badge.id ≡ 0) }
    ensures settles { Settles posters (view_of seat.badge) (view_of result.seat.badge) }
{
    if posters == 0 {
        return take_some(ring, seat);
    }
    let poster = posters - 1;
    let own = seat.split(ring);
    let (sent, mut took) = join(
        rt,
        move || -> Sent
            requires { (own.badge.table_id ≡ ring.now.table.shared.table_id) × (100 ≤ (view_of own.badge).budget) × (poster < 8) }
            ensures { (result.seat.badge.table_id ≡ own.badge.table_id) × ((view_of result.seat.badge).number ≡ (view_of own.badge).number) }
        { post_all(ring, own, poster) },
        move || -> Took
            requires { IsSync R.row × (seat.badge.table_id ≡ ring.now.table.shared.table_id) × (seat.badge.id ≡ 0) × ((view_of seat.badge).cells ≡ length ring.now.queue.cells) × (poster ≤ 8) × (poster ≤ (view_of seat.badge).seats) }
            ensures { (result.seat.badge.table_id ≡ seat.badge.table_id) × (result.seat.badge.id ≡ 0) × Settles poster (view_of seat.badge) (view_of result.seat.badge) }
        { run(rt, ring, seat, poster) },
    );
    took.seat.join(ring, sent.seat);
    took.tally.sent = took.tally.sent.saturating_add(sent.sent);
    took.tally.refused = took.tally.refused.saturating_add(sent.refused);
    took
}

/// Opens the queue, lets eight threads post to it, closes it and takes what is left.
fn round<R: Threads + Sync>(
    rt: &R,
    alloc: Global,
    queue: DataQueue,
) -> Result<(DataQueue, Tally), Fail>
    requires { (queue.live ≡ true) × (queue.marked ≡ false) }
    ensures { IfOk result (λ r. r.0.live ≡ true) }
{
    let (ring, seat) = LogRing::open(alloc, queue).ok().ok_or("ring")?;
    let Took { seat, mut tally } = run(rt, &ring, seat, 8);
    let mut queue = ring.close(seat);
    for _ in 0..POSTS * 8 {
        if let Some(c) = queue.take() {
            tally.see(c);
        }
    }
    Ok((queue, tally))
}

#[test]
fn each_entry_is_taken_once(rt: HostRuntime) -> Result<(), Fail> {
    let mut queue = live_queue(rt.alloc(), 1000)?;
    for _ in 0..40 {
        let (next, tally) = round(&rt, rt.alloc(), queue)?;
        assert!(rt; tally.in_order && tally.refused == 0);
        assert!(rt; tally.taken == [POSTS; 8]);
        if next.marked() {
            return Err(Fail::from("marked"));
        }
        queue = next;
    }
    Ok(())
}

#[test]
fn a_full_log_loses_entries_and_tells_it(rt: HostRuntime) -> Result<(), Fail> {
    for _ in 0..40 {
        let queue = live_queue(rt.alloc(), 16)?;
        let (left, tally) = round(&rt, rt.alloc(), queue)?;
        assert!(rt; tally.in_order && tally.sent.saturating_add(tally.refused) == POSTS * 8);
        assert!(rt; tally.count() <= tally.sent);
        assert!(rt; left.marked() == (tally.refused > 0));
        assert!(rt; left.marked() || tally.count() == tally.sent);
    }
    Ok(())
}
