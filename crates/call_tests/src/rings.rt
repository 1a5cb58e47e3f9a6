//! The rings of a queue pair over several wraps, full rings, and doorbells past them.

use nvm_ring::{BadDoorbell, CqRing, Full, GuestCq, GuestSq, RingState, SqRing};
use nvm_values::{Cqe, Sqe, Status};

/// A ring's page at the start.
const ZEROED: [u8; 4096] = [0; 4096];

fn entry(cid: u16) -> Sqe {
    let mut e = Sqe::from_bytes(&[0; 64]);
    e.cid = cid;
    e
}

/// The status is told apart by its code.
fn completion(cid: u16) -> Cqe {
    let mut c = Cqe::from_bytes(&[0; 16]);
    c.cid = cid;
    c.status = Status::new(0, 0x80);
    c
}

#[test]
fn submission_ring_over_two_wraps(rt: HostRuntime) {
    let mut page = ZEROED;
    let mut guest = GuestSq::new(3);
    let mut ring = SqRing::new(guest.state());
    assert!(rt; ring.fetch(&page).is_none());
    for i in 0..3u16 {
        assert!(rt; guest.submit(&mut page, &entry(2 * i)) == Ok((2 * i + 1) % 3));
        assert!(rt; guest.submit(&mut page, &entry(2 * i + 1)) == Ok((2 * i + 2) % 3));
        let before = page;
        assert!(rt; guest.is_full());
        assert!(rt; guest.submit(&mut page, &entry(99)) == Err(Full));
        assert!(rt; page == before);
        assert!(rt; ring.set_tail(guest.state().tail) == Ok(()));
        assert!(rt; !ring.is_empty());
        assert!(rt; ring.fetch(&page) == Some(entry(2 * i)));
        assert!(rt; ring.fetch(&page) == Some(entry(2 * i + 1)));
        assert!(rt; ring.fetch(&page) == None);
        assert!(rt; guest.learn(ring.state().head) == Ok(()));
    }
    // an entry has 64 bytes, its identifier in bytes 2 and 3: each cell holds the last entry that was due to it
    assert!(rt; (page[2], page[64 + 2], page[128 + 2]) == (3, 4, 5));
}

#[test]
fn doorbells_past_the_ring(rt: HostRuntime) {
    let state = RingState {
        size: 4,
        head: 1,
        tail: 3,
    };
    let mut ring = SqRing::new(state);
    for value in [4, 5, 65_535] {
        assert!(rt; ring.set_tail(value) == Err(BadDoorbell { value }));
        assert!(rt; ring.state() == state);
    }
    assert!(rt; ring.set_tail(0) == Ok(()));
    assert!(rt; ring.state().tail == 0);
    let mut guest = GuestSq::new(4);
    assert!(rt; guest.learn(4) == Err(BadDoorbell { value: 4 }));
    assert!(rt; guest.state().head == 0);
    assert!(rt; guest.learn(3) == Ok(()));
    assert!(rt; guest.state().head == 3);
}

#[test]
fn completion_rings_over_two_wraps(rt: HostRuntime) {
    for size in [2u16, 4] {
        let mut page = ZEROED;
        let start = RingState {
            size,
            head: 0,
            tail: 0,
        };
        let mut ring = CqRing::new(start, true);
        let mut guest = GuestCq::new(size);
        assert!(rt; guest.reap(&page).is_none());
        for number in 0..2 * size + 1 {
            assert!(rt; ring.free() == size - 1);
            assert!(rt; ring.phase() == (number / size != 1));
            assert!(rt; ring.post(&mut page, &completion(number)) == Ok(()));
            // a completion is 16 bytes, with its phase tag in bit 0 of the last word
            let tag = page[usize::from(16 * (number % size) + 14)] % 2;
            let odd = if number / size == 1 { 0 } else { 1 };
            assert!(rt; tag == odd);
            let reaped = guest.reap(&page).map(|c| (c.cid, c.status));
            assert!(rt; reaped == Some((number, Status::new(0, 0x80))));
            assert!(rt; guest.head() == (number + 1) % size);
            assert!(rt; guest.reap(&page).is_none());
            assert!(rt; ring.set_head(guest.head()) == Ok(()));
        }
    }
}

#[test]
fn full_completion_ring_and_its_doorbell(rt: HostRuntime) {
    let mut page = ZEROED;
    let start = RingState {
        size: 4,
        head: 0,
        tail: 0,
    };
    let mut ring = CqRing::new(start, true);
    for cid in 0..3 {
        assert!(rt; ring.free() == 3 - cid);
        assert!(rt; ring.post(&mut page, &completion(cid)) == Ok(()));
    }
    let before = page;
    assert!(rt; ring.post(&mut page, &completion(9)) == Err(Full));
    assert!(rt; page == before);
    assert!(rt; ring.free() == 0);
    assert!(rt; ring.set_head(2) == Ok(()));
    assert!(rt; ring.post(&mut page, &completion(3)) == Ok(()));
    assert!(rt; (ring.state().tail, ring.phase()) == (0, false));
    for value in [1, 4, 65_535] {
        assert!(rt; ring.set_head(value) == Err(BadDoorbell { value }));
        assert!(rt; ring.state().head == 2);
    }
    assert!(rt; ring.set_head(0) == Ok(()));
    assert!(rt; ring.set_head(1) == Err(BadDoorbell { value: 1 }));
    assert!(rt; ring.free() == 3);
}
