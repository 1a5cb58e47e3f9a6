//! Two seats post to a log of two cells, which is full at the third entry.
use crate::entries::{change, live_queue};
use data_queue::Full;
use log_ring::LogRing;
use std::process::Abort;
use std::test::Fail;

#[test]
fn the_third_entry_finds_no_cell(rt: HostRuntime) -> Result<(), Fail> {
    let queue = live_queue(rt.alloc(), 2)?;
    let (ring, mut seat) = LogRing::open(rt.alloc(), queue).ok().ok_or("ring")?;
    let mut first = seat.split(&ring);
    let mut second = seat.split(&ring);
    let (a, b, c) = (
        first.post(&ring, change(10)),
        second.post(&ring, change(20)),
        first.post(&ring, change(30)),
    );
    assert!(rt; a == Ok(()) && b == Ok(()));
    assert!(rt; c == Err(Full));
    let (a, b, none) = (seat.take(&ring), seat.take(&ring), seat.take(&ring));
    assert!(rt; a == Some(change(10)));
    assert!(rt; b == Some(change(20)));
    assert!(rt; none.is_none());
    seat.join(&ring, first);
    seat.join(&ring, second);
    let mut queue = ring.close(seat);
    assert!(rt; queue.marked());
    assert!(rt; queue.take().is_none());
    Ok(())
}
