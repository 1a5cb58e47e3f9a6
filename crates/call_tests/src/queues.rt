//! A change queue of three cells, over two passes and where it is full.

ghost use Rattle.std.specs.Prelude.{◌≡◌, ◌<◌, IfOk, length, true};
ghost use Rattle.data_queue.specs.Change.{IsChange};

use data_queue::{BadHead, Change, DataQueue, Full};
use mig_base::Span;
use std::alloc::Global;
use std::process::Abort;
use std::test::Fail;

/// The entry of a write of block 60 in the first pass.
const BLOCK_60: [u8; 32] = [
    1, 0, 0, 0, 0, 0, 0, 0, 60, 0, 0, 0, 0, 0, 0, 0, 1, 0, 0, 0, 1, 0, 0, 0, 0, 0, 0, 0, 0, 0, 0, 1,
];

fn change(first: u32) -> Change
    requires { first < 131072 }
    ensures { IsChange result }
{
    Change {
        span: Span { first, count: 1 },
    }
}

/// A live queue of three cells.
fn live_queue(alloc: Global) -> Result<DataQueue, Fail>
    ensures { IfOk result (λ q. (q.live ≡ true) × (length q.cells ≡ 3)) }
{
    let mut queue = DataQueue::make(alloc, 3).ok().ok_or("queue")?;
    if !queue.create() {
        return Err(Fail::from("not created"));
    }
    Ok(queue)
}

fn post(queue: &mut DataQueue, first: u32) -> Result<(), Full>
    requires { (queue.old.live ≡ true) × (first < 131072) }
    ensures { (queue.new.live ≡ true) × (length queue.new.cells ≡ length queue.old.cells) }
{
    queue.post(change(first))
}

fn take(queue: &mut DataQueue) -> Option<Change>
    requires { queue.old.live ≡ true }
    ensures { (queue.new.live ≡ true) × (length queue.new.cells ≡ length queue.old.cells) }
{
    queue.take()
}

/// An entry is posted, and taken as it was.
fn goes_round(rt: &impl Abort, queue: &mut DataQueue, first: u32)
    requires { (queue.old.live ≡ true) × (first < 131072) }
    ensures { (queue.new.live ≡ true) × (length queue.new.cells ≡ length queue.old.cells) }
{
    let posted = post(queue, first);
    assert!(rt; posted == Ok(()));
    let taken = take(queue);
    assert!(rt; taken == Some(change(first)));
}

#[test]
fn an_entry_has_its_bytes(rt: HostRuntime) {
    assert!(&rt; change(60).to_bytes(true) == BLOCK_60);
    assert!(&rt; Change::parse(&BLOCK_60) == Some((change(60), true)));
}

/// A byte of an entry that has to be zero isn't, and each of the numbers is out of its range.
#[test]
fn no_entry_is_told(rt: HostRuntime) {
    for place in [4usize, 15, 21, 30] {
        let mut bytes = BLOCK_60;
        bytes[place] = 1;
        assert!(&rt; Change::parse(&bytes) == None);
    }
    for (place, byte) in [(0usize, 2u8), (10, 2), (16, 0), (16, 65), (20, 2), (31, 2)] {
        let mut bytes = BLOCK_60;
        bytes[place] = byte;
        assert!(&rt; Change::parse(&bytes) == None);
    }
    assert!(&rt; change(60).is_in_range());
}

/// Two passes and a bit: each entry is taken as it was posted, and the phase tag turns over.
#[test]
fn entries_go_round(rt: HostRuntime) -> Result<(), Fail> {
    let mut queue = live_queue(rt.alloc())?;
    goes_round(&rt, &mut queue, 0);
    goes_round(&rt, &mut queue, 1);
    goes_round(&rt, &mut queue, 2);
    goes_round(&rt, &mut queue, 3);
    goes_round(&rt, &mut queue, 4);
    goes_round(&rt, &mut queue, 5);
    goes_round(&rt, &mut queue, 6);
    let none = take(&mut queue);
    assert!(&rt; none == None);
    assert!(&rt; *queue.cell(0) == change(6).to_bytes(true));
    assert!(&rt; *queue.cell(1) == change(4).to_bytes(false));
    Ok(())
}

/// The fourth entry of three cells raises the mark, which stays until the queue is made anew.
#[test]
fn a_full_queue_raises_its_mark(rt: HostRuntime) -> Result<(), Fail> {
    let mut queue = live_queue(rt.alloc())?;
    let posted = [
        post(&mut queue, 0),
        post(&mut queue, 1),
        post(&mut queue, 2),
    ];
    assert!(&rt; posted == [Ok(()), Ok(()), Ok(())] && !queue.marked());
    let lost = post(&mut queue, 3);
    assert!(&rt; lost == Err(Full) && queue.marked());
    let past = queue.set_head(3);
    assert!(&rt; past == Err(BadHead { value: 3 }));
    let two = queue.set_head(2);
    assert!(&rt; two == Ok(()));
    let back = queue.set_head(1);
    assert!(&rt; back == Err(BadHead { value: 1 }));
    let still = post(&mut queue, 4);
    assert!(&rt; still == Err(Full));
    let taken = [take(&mut queue), take(&mut queue)];
    assert!(&rt; taken == [Some(change(2)), None]);
    assert!(&rt; queue.delete() && !queue.live());
    assert!(&rt; queue.create() && !queue.marked());
    Ok(())
}
