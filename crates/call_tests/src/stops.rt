//! Calls that fail: pieces whose medium fails, an input or an output that does, and hosts and inputs that don't fit.

use crate::programs::{
    Given, Left, ONE_SHELF, PACE, TWO_SHELVES, block_of, called, called_by, joined, steps_of,
};
use engine::{Status, Why};
use mig_base::BytesSink;
use mig_medium::Step;
use std::alloc::{AllocError, Global};
use std::process::Abort;
use std::test::Fail;
use std::thread::Threads;

/// 32 blocks in two shelves, and one lane.
const ONE_LANE: &str =
    "nvmigrate script 1\nblocks 32\nshelf 16\nlanes 1\nlane 1 sq 4 cq 4 pages 1\n";

/// Two lanes that write the same blocks, over the bound of two shelves. One reads them back.
const TWO_LANES: &str = "\
nvmigrate script 1
blocks 32
shelf 16
lanes 2
lane 1 sq 4 cq 4 pages 1
lane 2 sq 4 cq 4 pages 1
";

const OVERLAPPING: &str = "\
1 fill 0 11
1 submit 1 write 14 4 0 -
1 wait
1 submit 2 read 14 4 0 -
2 fill 0 22
2 submit 1 write 14 4 0 -
2 wait
";

const OVERLAPPING_TEXT: &str = "\
nvmigrate transcript 1
ready
act 1 1
act 1 2
fetch 1 1 0 00 2
act 2 1
act 2 2
fetch 2 1 0 00 2
piece 1 1 14 2 ok
piece 1 1 16 2 ok
piece 2 1 14 2 ok
piece 2 1 16 2 ok
post 1 1 0 00
post 2 1 0 00
reap 1 1 0 00 1 1
act 1 3
act 1 4
fetch 1 2 0 00 2
reap 2 1 0 00 1 1
act 2 3
piece 1 2 14 2 ok 9512a6eeb321fca57e7470e193a589f05b58154719e99568099b1d6133818e5e
piece 1 2 16 2 ok 9512a6eeb321fca57e7470e193a589f05b58154719e99568099b1d6133818e5e
post 1 2 0 00
reap 1 2 0 00 2 1
end
";

/// A write whose first piece fails at its third block: the second piece is done, and the first decides the status.
const WRITE: &str = "1 fill 0 5a\n1 submit 1 write 13 5 0 -\n";

const WRITE_TEXT: &str = "\
nvmigrate transcript 1
ready
act 1 1
act 1 2
fetch 1 1 0 00 2
piece 1 1 13 3 fault 2
piece 1 1 16 2 ok
post 1 1 2 80
reap 1 1 2 80 1 1
end
";

/// The same of a read.
const READ: &str = "1 submit 1 read 13 5 0 -\n";

const READ_TEXT: &str = "\
nvmigrate transcript 1
ready
act 1 1
fetch 1 1 0 00 2
piece 1 1 13 3 fault 2 5f70bf18a086007016e948b04aed3b82103a36bea41755b6cddfaf10ace3c6ef
piece 1 1 16 2 ok 5f70bf18a086007016e948b04aed3b82103a36bea41755b6cddfaf10ace3c6ef
post 1 1 2 81
reap 1 1 2 81 1 1
end
";

/// And of commands that write zeroes, verify and compare.
const ZEROES: &str = "1 submit 1 zeroes 13 5 - -\n";

const ZEROES_TEXT: &str = "\
nvmigrate transcript 1
ready
act 1 1
fetch 1 1 0 00 2
piece 1 1 13 3 fault 2
piece 1 1 16 2 ok
post 1 1 2 80
reap 1 1 2 80 1 1
end
";

const VERIFY: &str = "1 submit 1 verify 13 5 - -\n";

const COMPARE: &str = "1 submit 1 compare 13 5 0 -\n";

const VERIFY_TEXT: &str = "\
nvmigrate transcript 1
ready
act 1 1
fetch 1 1 0 00 2
piece 1 1 13 3 fault 2
piece 1 1 16 2 ok
post 1 1 2 81
reap 1 1 2 81 1 1
end
";

/// The script of one lane with these acts.
fn script(alloc: Global, acts: &str) -> Result<Vec<u8>, AllocError> {
    joined(alloc, &[ONE_LANE, PACE, acts, "end\n"])
}

/// The run comes to its end with this transcript.
fn writes<R: Threads + Sync + Abort>(
    rt: &R,
    alloc: Global,
    acts: &str,
    given: Given<'_>,
    text: &str,
) -> Result<Left, Fail> {
    let left = called(rt, alloc, script(alloc, acts)?, given)?;
    assert!(rt; left.status == Status::Done && left.output.bytes() == text.as_bytes());
    Ok(left)
}

/// Nothing was run: this status, and no output.
fn refuses<R: Threads + Sync + Abort>(
    rt: &R,
    alloc: Global,
    text: Vec<u8>,
    given: Given<'_>,
    status: Status,
) -> Result<(), Fail> {
    let left = called(rt, alloc, text, given)?;
    assert!(rt; left.status == status && left.output.bytes().is_empty());
    Ok(())
}

#[test]
fn pieces_fail(rt: HostRuntime) -> Result<(), Fail> {
    let failing = Given {
        failing_from_puts: &[3],
        failing_from_gets: &[3],
        ..TWO_SHELVES
    };
    writes(&rt, rt.alloc(), READ, failing, READ_TEXT)?;
    writes(&rt, rt.alloc(), ZEROES, failing, ZEROES_TEXT)?;
    writes(&rt, rt.alloc(), VERIFY, failing, VERIFY_TEXT)?;
    writes(&rt, rt.alloc(), COMPARE, failing, VERIFY_TEXT)?;
    let mut left = writes(&rt, rt.alloc(), WRITE, failing, WRITE_TEXT)?;
    let puts = [Step::Put(13), Step::Put(14), Step::Put(15)];
    assert!(&rt; steps_of(&left.from, 0) == Some(puts.as_slice()));
    let puts = [Step::Put(0), Step::Put(1)];
    assert!(&rt; steps_of(&left.from, 1) == Some(puts.as_slice()));
    assert!(&rt; block_of(&mut left.from, 0, 14) == Some([0x5a; 512]));
    assert!(&rt; block_of(&mut left.from, 0, 15) == Some([0; 512]));
    assert!(&rt; block_of(&mut left.from, 1, 0) == Some([0x5a; 512]));
    assert!(&rt; block_of(&mut left.from, 1, 2) == Some([0; 512]));
    Ok(())
}

/// A write of the output fails: the lines before it were taken, each by a write of its own, and the source holds what the
/// events of the turn led to whose lines they were. Before `ready` was written, nothing was done.
#[test]
fn the_output_fails(rt: HostRuntime) -> Result<(), Fail> {
    for write in [1, 2, 3, 14, 15, 24, 25] {
        let written = write as usize - 1;
        let text = joined(rt.alloc(), &[TWO_LANES, PACE, OVERLAPPING, "end\n"])?;
        let failing_writes = [write];
        let failing = Given {
            failing_writes: &failing_writes,
            ..TWO_SHELVES
        };
        let mut left = called(&rt, rt.alloc(), text, failing)?;
        assert!(&rt; left.status == Status::WriteFault);
        let front = left.output.bytes();
        assert!(&rt; OVERLAPPING_TEXT.as_bytes().starts_with(front));
        assert!(&rt; front.iter().filter(|byte| **byte == b'\n').count() == written);
        let byte = if written < 2 { 0 } else { 0x22 };
        assert!(&rt; block_of(&mut left.from, 0, 14) == Some([byte; 512]));
        assert!(&rt; block_of(&mut left.to, 0, 14) == Some([0; 512]));
    }
    Ok(())
}

const SHOWN_FRONT: &str = "\
controller nvmigrate virtual controller
mdts 3
namespace 1 blocks 32 bytes 512
shelves 2 of 16
";

/// The plan of a script, whose fifth line isn't taken.
#[test]
fn the_output_of_show_fails(rt: HostRuntime) -> Result<(), Fail> {
    let failing = Given {
        failing_writes: &[5],
        ..ONE_SHELF
    };
    let text = script(rt.alloc(), READ)?;
    let left = called_by(&rt, rt.alloc(), &["show"], text, failing)?;
    assert!(&rt; left.status == Status::WriteFault);
    assert!(&rt; left.output.bytes() == SHOWN_FRONT.as_bytes());
    Ok(())
}

#[test]
fn the_input_fails(rt: HostRuntime) -> Result<(), Fail> {
    let failing = Given {
        failing_reads: &[1],
        ..TWO_SHELVES
    };
    let text = script(rt.alloc(), READ)?;
    refuses(&rt, rt.alloc(), text, failing, Status::ReadFault)
}

/// An input of the longest length that is no script, and one byte more.
#[test]
fn the_input_is_bounded(rt: HostRuntime) -> Result<(), Fail> {
    let (line, why) = (1, Why::Cut);
    let longest = vec![in rt.alloc(); b'x'; 4_194_304]?;
    let bad = Status::BadScript { line, why };
    refuses(&rt, rt.alloc(), longest, ONE_SHELF, bad)?;
    let longer = vec![in rt.alloc(); b'x'; 4_194_305]?;
    refuses(&rt, rt.alloc(), longer, ONE_SHELF, Status::TooLong)
}

/// The number of shelves comes before their lengths, and the source before the destination.
#[test]
fn hosts_differ(rt: HostRuntime) -> Result<(), Fail> {
    let asked_four = Given {
        from: &[16, 16, 16],
        to: &[16],
        ..TWO_SHELVES
    };
    let second_short = Given {
        from: &[16, 15],
        to: &[16],
        ..TWO_SHELVES
    };
    let destination_long = Given {
        to: &[16, 17],
        ..TWO_SHELVES
    };
    for (given, kept, asked) in [
        (asked_four, 3, 2),
        (second_short, 15, 16),
        (destination_long, 17, 16),
    ] {
        let text = script(rt.alloc(), READ)?;
        let status = Status::HostSize { kept, asked };
        refuses(&rt, rt.alloc(), text, given, status)?;
    }
    Ok(())
}

/// The texts of the statuses that no case shows.
#[test]
fn statuses_are_told(rt: HostRuntime) -> Result<(), Fail> {
    for (status, code, text) in [
        (Status::Done, 0, ""),
        (Status::TooLong, 2, "too long\n"),
        (Status::OutOfMemory, 3, "out of memory\n"),
        (Status::ReadFault, 5, "read fault\n"),
        (Status::WriteFault, 6, "write fault\n"),
        (Status::GaveUp, 7, "gave up\n"),
    ] {
        let made = BytesSink::make(rt.alloc(), 64, Vec::new(rt.alloc()));
        let mut sink = made.map_err(|_| "no sink")?;
        assert!(&rt; status.write(&mut sink).is_ok() && status.code() == code);
        assert!(&rt; sink.bytes() == text.as_bytes());
    }
    Ok(())
}
