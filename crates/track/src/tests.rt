use super::*;
use mig_base::Span;
use std::test::Fail;

/// A change is posted where logging is on and the queue is live, and nowhere else.
#[test]
fn changes_are_noted(rt: HostRuntime) -> Result<(), Fail> {
    let change = Change {
        span: Span { first: 7, count: 3 },
    };
    let mut queue = DataQueue::make(rt.alloc(), 2).ok().ok_or("queue")?;
    let mut tracker = Tracker::new();
    tracker.set_logging(true);
    tracker.note(change, &mut queue);
    assert!(&rt; queue.create() && queue.take() == None);
    tracker.note(change, &mut queue);
    assert!(&rt; queue.take() == Some(change));
    tracker.set_logging(false);
    assert!(&rt; !tracker.logging());
    tracker.note(change, &mut queue);
    assert!(&rt; queue.take() == None);
    Ok(())
}
