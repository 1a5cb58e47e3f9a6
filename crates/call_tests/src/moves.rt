//! Moves: what either host holds afterwards, and each call of either medium.

use crate::programs::{Given, Left, ONE_SHELF, TWO_SHELVES, block_of, called, joined, steps_of};
use engine::Status;
use mig_medium::Step;
use std::alloc::{AllocError, Global};
use std::test::Fail;

/// A script without acts that moves its guest before the first turn.
const AT_ONCE: &str = "\
nvmigrate script 1
blocks 16
shelf 16
lanes 1
lane 1 sq 2 cq 2 pages 1
burst 4
mix 0
change 4
slice 4
small 16
pages 4
patience 8
migrate 1
end
";

/// A block is written before the move. After it that block is read and another is written, a turn later, since `idle`
/// ends a turn's acts; and both are verified.
const MOVING: &str = "\
nvmigrate script 1
blocks 16
shelf 16
lanes 1
lane 1 sq 4 cq 4 pages 2
burst 4
mix 0
change 4
slice 4
small 16
pages 4
patience 8
migrate 2
1 fill 0 5a
1 submit 1 write 3 1 0 -
1 wait
1 submit 2 read 3 1 1 -
1 idle
1 submit 3 write 4 1 0 -
1 wait
1 submit 4 verify 3 2 - -
end
";

/// Two lanes of which one writes another block after the move.
const MOVING_LANES: &str = "\
nvmigrate script 1
blocks 32
shelf 16
lanes 2
lane 1 sq 4 cq 4 pages 1
lane 2 sq 4 cq 4 pages 2
burst 4
mix 7
change 4
slice 4
small 32
pages 7
patience 8
migrate 2
1 fill 0 11
1 submit 1 write 14 4 0 -
1 wait
1 submit 2 read 14 4 0 -
2 fill 1 22
2 submit 1 write 14 4 1 -
2 idle
2 submit 2 write 30 1 1 -
end
";

/// The events of the first turn of the two lanes, and those of the others.
const BEFORE_MOVE: &str = "\
act 1 1
act 1 2
fetch 1 1 0 00 2
act 2 1
act 2 2
act 2 3
fetch 2 1 0 00 2
piece 2 1 14 2 ok
piece 1 1 14 2 ok
piece 1 1 16 2 ok
piece 2 1 16 2 ok
post 1 1 0 00
post 2 1 0 00
";

const AFTER_MOVE: &str = "\
reap 1 1 0 00 1 1
act 1 3
act 1 4
fetch 1 2 0 00 2
reap 2 1 0 00 1 1
act 2 4
fetch 2 2 0 00 1
piece 1 2 14 2 ok 9f36749c5fb3b23ed904ad1582f24a6a65ef3b9e263b1be28af4f792ea269f43
piece 2 2 30 1 ok
piece 1 2 16 2 ok 9512a6eeb321fca57e7470e193a589f05b58154719e99568099b1d6133818e5e
post 1 2 0 00
post 2 2 0 00
reap 1 2 0 00 2 1
reap 2 2 0 00 2 1
";

/// A destination whose third put fails.
const THIRD_PUT: &[u64] = &[3];

fn run<R: std::thread::Threads + Sync>(
    rt: &R,
    alloc: Global,
    script: &str,
    given: Given<'_>,
) -> Result<Left, Fail> {
    called(rt, alloc, joined(alloc, &[script])?, given)
}

/// The transcript with these parts between its first two lines and the last.
fn transcript(alloc: Global, parts: [&str; 3]) -> Result<Vec<u8>, AllocError> {
    let [before, lines, after] = parts;
    let first = "nvmigrate transcript 1\nready\n";
    joined(alloc, &[first, before, lines, after, "end\n"])
}

/// The marks of a pause after turn 1: three times its number, and 1 more where the guests are suspended, 2 where they go on.
const SUSPENDED: Step = Step::Mark(4);

const GONE_ON: Step = Step::Mark(5);

/// The source's calls: the write before the move, and each block read once, between two marks.
const SOURCE_CALLS: [Step; 19] = [
    Step::Put(3),
    SUSPENDED,
    Step::Get(0),
    Step::Get(1),
    Step::Get(2),
    Step::Get(3),
    Step::Get(4),
    Step::Get(5),
    Step::Get(6),
    Step::Get(7),
    Step::Get(8),
    Step::Get(9),
    Step::Get(10),
    Step::Get(11),
    Step::Get(12),
    Step::Get(13),
    Step::Get(14),
    Step::Get(15),
    GONE_ON,
];

/// The destination's: each block written once, between the marks, and then what the guest does there.
const DESTINATION_CALLS: [Step; 22] = [
    SUSPENDED,
    Step::Put(0),
    Step::Put(1),
    Step::Put(2),
    Step::Put(3),
    Step::Put(4),
    Step::Put(5),
    Step::Put(6),
    Step::Put(7),
    Step::Put(8),
    Step::Put(9),
    Step::Put(10),
    Step::Put(11),
    Step::Put(12),
    Step::Put(13),
    Step::Put(14),
    Step::Put(15),
    GONE_ON,
    Step::Get(3),
    Step::Put(4),
    Step::Get(3),
    Step::Get(4),
];

/// The source's calls where the destination's third put fails: no block is read after it, and the guest goes on there.
const STAYED_CALLS: [Step; 10] = [
    Step::Put(3),
    SUSPENDED,
    Step::Get(0),
    Step::Get(1),
    Step::Get(2),
    GONE_ON,
    Step::Get(3),
    Step::Put(4),
    Step::Get(3),
    Step::Get(4),
];

/// The destination's: the same marks, and none behind them.
const STOPPED_CALLS: [Step; 5] = [SUSPENDED, Step::Put(0), Step::Put(1), Step::Put(2), GONE_ON];

/// Each block is read and written once, and then the guest's own calls come to the destination alone.
#[test]
fn a_move_copies_each_block_once(rt: HostRuntime) -> Result<(), Fail> {
    let mut left = run(&rt, rt.alloc(), MOVING, ONE_SHELF)?;
    assert!(&rt; left.status == Status::Done);
    assert!(&rt; steps_of(&left.from, 0) == Some(SOURCE_CALLS.as_slice()));
    assert!(&rt; steps_of(&left.to, 0) == Some(DESTINATION_CALLS.as_slice()));
    assert!(&rt; block_of(&mut left.from, 0, 3) == Some([0x5a; 512]));
    assert!(&rt; block_of(&mut left.from, 0, 4) == Some([0; 512]));
    assert!(&rt; block_of(&mut left.to, 0, 3) == Some([0x5a; 512]));
    assert!(&rt; block_of(&mut left.to, 0, 4) == Some([0x5a; 512]));
    Ok(())
}

/// What is written after a move stands at the destination alone.
#[test]
fn lanes_go_on_at_the_destination(rt: HostRuntime) -> Result<(), Fail> {
    let mut left = run(&rt, rt.alloc(), MOVING_LANES, TWO_SHELVES)?;
    assert!(&rt; left.status == Status::Done);
    assert!(&rt; block_of(&mut left.from, 1, 14) == Some([0; 512]));
    assert!(&rt; block_of(&mut left.to, 1, 14) == Some([0x22; 512]));
    Ok(())
}

/// Where the destination's third put fails the migration is given up, with or without acts, and the guests go on at the
/// source.
#[test]
fn a_failed_put_gives_up(rt: HostRuntime) -> Result<(), Fail> {
    let lines = "migrate\nsuspend\ngive up\n";
    let failing = Given {
        failing_to_puts: THIRD_PUT,
        ..ONE_SHELF
    };
    let text = transcript(rt.alloc(), ["", lines, ""])?;
    let left = run(&rt, rt.alloc(), AT_ONCE, failing)?;
    assert!(&rt; left.status == Status::GaveUp && left.output.bytes() == text.as_slice());
    let failing = Given {
        failing_to_puts: THIRD_PUT,
        ..TWO_SHELVES
    };
    let text = transcript(rt.alloc(), [BEFORE_MOVE, lines, AFTER_MOVE])?;
    let mut left = run(&rt, rt.alloc(), MOVING_LANES, failing)?;
    assert!(&rt; left.status == Status::GaveUp && left.output.bytes() == text.as_slice());
    assert!(&rt; block_of(&mut left.from, 1, 14) == Some([0x22; 512]));
    assert!(&rt; block_of(&mut left.to, 1, 14) == Some([0; 512]));
    Ok(())
}

/// A move that is given up has the marks of one that isn't, on both sides.
#[test]
fn a_move_that_is_given_up_is_marked(rt: HostRuntime) -> Result<(), Fail> {
    let failing = Given {
        failing_to_puts: THIRD_PUT,
        ..ONE_SHELF
    };
    let left = run(&rt, rt.alloc(), MOVING, failing)?;
    assert!(&rt; left.status == Status::GaveUp);
    assert!(&rt; steps_of(&left.from, 0) == Some(STAYED_CALLS.as_slice()));
    assert!(&rt; steps_of(&left.to, 0) == Some(STOPPED_CALLS.as_slice()));
    Ok(())
}
