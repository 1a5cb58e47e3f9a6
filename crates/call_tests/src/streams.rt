//! Sources and sinks: short reads and writes, and calls that fail.

use mig_base::{
    BytesSink, BytesSource, CollectRefusal, Failed, ReadSource, Sink, Source, WriteSink, collect,
    send,
};
use std::alloc::{AllocError, Global};
use std::process::Abort;
use std::test::Fail;

/// A source of seven bytes, which gives 3 at a time, and whose calls of these numbers fail.
fn seven(alloc: Global, fails: &[u64]) -> Result<BytesSource, AllocError> {
    let bytes = b"seven!!".to_vec(alloc)?;
    Ok(BytesSource::make(bytes, 3, fails.to_vec(alloc)?))
}

/// Short reads, the second of which fails and moves nothing.
fn reads(rt: &impl Abort, alloc: Global) -> Result<(), Fail> {
    let mut source = seven(alloc, &[2])?;
    let mut buf = [0; 4];
    assert!(rt; source.read(&mut buf) == Ok(3) && buf == *b"sev\0");
    assert!(rt; source.read(&mut buf) == Err(Failed));
    let rest = collect(alloc, &mut source, 4).map_err(|_| "not collected")?;
    assert!(rt; rest.as_slice() == b"en!!".as_slice());
    Ok(())
}

/// A source that is too long by one, one that fails, and a reader of std.
fn refusals(rt: &impl Abort, alloc: Global) -> Result<(), Fail> {
    let long = collect(alloc, &mut seven(alloc, &[])?, 6);
    assert!(rt; matches!(&long, Err(CollectRefusal::TooLong)));
    let broken = collect(alloc, &mut seven(alloc, &[3])?, 7);
    assert!(rt; matches!(&broken, Err(CollectRefusal::Fault)));
    let mut reader = ReadSource::over(b"seven!!".as_slice());
    let all = collect(alloc, &mut reader, 7).map_err(|_| "not collected")?;
    assert!(rt; all.as_slice() == b"seven!!".as_slice());
    Ok(())
}

/// A write that fails, and a piece past the room.
fn writes(rt: &impl Abort, alloc: Global) -> Result<(), Fail> {
    let made = BytesSink::make(alloc, 5, vec![in alloc; 2]?);
    let mut sink = made.map_err(|_| "no sink")?;
    assert!(rt; send(&mut sink, b"ab") == Ok(()));
    assert!(rt; send(&mut sink, b"cd") == Err(Failed));
    assert!(rt; send(&mut sink, b"cde") == Ok(()));
    assert!(rt; send(&mut sink, b"f") == Err(Failed));
    assert!(rt; sink.bytes() == b"abcde".as_slice());
    Ok(())
}

/// A writer of std that takes nothing more once it is full.
fn a_full_writer(rt: &impl Abort) {
    let mut place = [0; 3];
    let mut sink = WriteSink::over(place.as_mut_slice());
    assert!(rt; sink.write(b"abcd") == Ok(3));
    assert!(rt; sink.write(b"d") == Err(Failed));
    assert!(rt; sink.write(b"") == Ok(0));
}

#[test]
fn streams(rt: HostRuntime) -> Result<(), Fail> {
    reads(&rt, rt.alloc())?;
    refusals(&rt, rt.alloc())?;
    writes(&rt, rt.alloc())?;
    a_full_writer(&rt);
    Ok(())
}
