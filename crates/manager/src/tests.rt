// What is owed over several counts, and the work of a turn over a port that takes changes of its own.
use crate::owed::Owed;
use crate::port::WorkPort;
use crate::side::{CopyAnswer, Side};
use crate::work::Work;
use data_queue::Change;
use mig_base::Span;
use std::test::Fail;

/// The lowest place is found wherever it was owed last: in the first 512, behind them, and at the end.
#[test]
fn the_lowest_comes_first(rt: HostRuntime) -> Result<(), Fail> {
    let mut owed = Owed::make(rt.alloc(), 1100).ok().ok_or("owed")?;
    assert!(&rt; owed.take_lowest() == None);
    owed.owe(1099);
    owed.owe(600);
    owed.owe(3);
    owed.owe(600);
    assert!(&rt; owed.count() == 3);
    assert!(&rt; owed.take_lowest() == Some(3));
    owed.owe(0);
    assert!(&rt; owed.take_lowest() == Some(0));
    assert!(&rt; owed.take_lowest() == Some(600));
    assert!(&rt; owed.contains(1099));
    assert!(&rt; owed.take_lowest() == Some(1099));
    assert!(&rt; owed.take_lowest() == None);
    assert!(&rt; owed.count() == 0);
    Ok(())
}

/// A change over the end of 512 places, and one over the end of all.
#[test]
fn changes_are_owed_as_far_as_there_are_blocks(rt: HostRuntime) -> Result<(), Fail> {
    let mut owed = Owed::make(rt.alloc(), 1100).ok().ok_or("owed")?;
    owed.owe_span(Change {
        span: Span {
            first: 511,
            count: 2,
        },
    });
    owed.owe_span(Change {
        span: Span {
            first: 1099,
            count: 64,
        },
    });
    assert!(&rt; owed.count() == 3);
    assert!(&rt; owed.take_lowest() == Some(511));
    assert!(&rt; owed.take_lowest() == Some(512));
    assert!(&rt; owed.take_lowest() == Some(1099));
    assert!(&rt; owed.take_lowest() == None);
    Ok(())
}

/// A port whose copies end as they are told, and which gives one change, of block 0, after each.
#[derive(Drop)]
struct FakeWork {
    left: u32,
    busy: Option<u32>,
    broken: Option<u32>,
    waiting: bool,
}

impl WorkPort for FakeWork {
    ghost Inside = { Unit {0} };

    ghost work = { λ p. record { count = 4; left = p.left; inside = tt } };

    ghost works = { λ old call new. Unit {0} };

    ghost seated = { λ inside. Unit {0} };

    fn copy(&mut self, b: u32) -> CopyAnswer {
        self.left -= 1;
        self.waiting = true;
        if self.busy == Some(b) {
            return CopyAnswer::Busy { holder: 1 };
        }
        if self.broken == Some(b) {
            return CopyAnswer::Fault { side: Side::To };
        }
        CopyAnswer::Copied
    }

    fn take(&mut self) -> Option<Change> {
        if !self.waiting {
            return None;
        }
        self.waiting = false;
        Some(Change {
            span: Span { first: 0, count: 1 },
        })
    }
}

/// The lowest blocks are copied once, and the block of the change is owed again although it was copied.
#[test]
fn a_written_block_stays_owed(rt: HostRuntime) -> Result<(), Fail> {
    let mut work = Work::make(rt.alloc(), 4, 2, 2).ok().ok_or("work")?;
    let mut port = FakeWork {
        left: 4,
        busy: None,
        broken: None,
        waiting: false,
    };
    work.owe_all();
    work.draw();
    assert!(&rt; work.count() == 2);
    work.all(&mut port);
    assert!(&rt; !work.left());
    assert!(&rt; port.left == 2);
    assert!(&rt; work.count() == 3);
    Ok(())
}

/// No block is tried behind one whose copy failed.
#[test]
fn a_fault_ends_the_work(rt: HostRuntime) -> Result<(), Fail> {
    let mut work = Work::make(rt.alloc(), 4, 2, 2).ok().ok_or("work")?;
    let mut port = FakeWork {
        left: 4,
        busy: Some(1),
        broken: Some(0),
        waiting: false,
    };
    work.owe_all();
    work.draw();
    work.all(&mut port);
    assert!(&rt; !work.left());
    assert!(&rt; work.failed() == Some(Side::To));
    assert!(&rt; port.left == 3);
    Ok(())
}
