//! The core of a move: a block that is copied again, and a log that lost a span.

use mig_base::Span;
use move_core::{Bytes, Core, CoreEvent, NotNow};
use std::alloc::Global;
use std::process::Abort;
use std::test::Fail;

/// A core of two blocks, with a log of two spans.
fn small(alloc: Global) -> Result<Core, Fail> {
    Ok(Core::make(alloc, 2, 2).ok().ok_or("core")?)
}

/// A write of block 0 by lane 1.
fn write(alloc: Global) -> Result<CoreEvent, Fail> {
    let mut bytes = Vec::new(alloc);
    for _ in 0..512 {
        bytes.push(0x5a)?;
    }
    Ok(CoreEvent::Piece {
        lane: 1,
        span: Span { first: 0, count: 1 },
        bytes: Bytes::new(bytes),
    })
}

fn goes(rt: &impl Abort, core: &mut Core, events: &[CoreEvent]) {
    for e in events {
        assert!(rt; core.step(e).is_ok());
    }
}

/// A block that is written after it was copied is owed again, and then both sides are the same.
#[test]
fn a_block_is_copied_again(rt: HostRuntime) -> Result<(), Fail> {
    let mut core = small(rt.alloc())?;
    let piece = write(rt.alloc())?;
    goes(
        &rt,
        &mut core,
        &[
            piece,
            CoreEvent::Post { lane: 1 },
            CoreEvent::Copy { block: 0 },
            CoreEvent::Copy { block: 1 },
        ],
    );
    assert!(&rt; core.step(&CoreEvent::Copy { block: 0 }) == Err(NotNow));
    assert!(&rt; core.step(&CoreEvent::Resume) == Err(NotNow));
    goes(
        &rt,
        &mut core,
        &[
            CoreEvent::Take,
            CoreEvent::Copy { block: 0 },
            CoreEvent::Suspend,
            CoreEvent::Resume,
        ],
    );
    assert!(&rt; core.source() == core.destination());
    assert!(&rt; core.source().first().copied() == Some([0x5a; 512]));
    assert!(&rt; core.source().get(1).copied() == Some([0; 512]));
    Ok(())
}

/// The third span of a log of two is lost: the mark is up, nothing is suspended, and a restart owes all.
#[test]
fn a_lost_span_restarts(rt: HostRuntime) -> Result<(), Fail> {
    let mut core = small(rt.alloc())?;
    for _ in 0..3 {
        let piece = write(rt.alloc())?;
        goes(&rt, &mut core, &[piece, CoreEvent::Post { lane: 1 }]);
    }
    assert!(&rt; core.step(&CoreEvent::Suspend) == Err(NotNow));
    goes(
        &rt,
        &mut core,
        &[CoreEvent::Restart, CoreEvent::Suspend, CoreEvent::GiveUp],
    );
    assert!(&rt; core.step(&CoreEvent::Take) == Err(NotNow));
    Ok(())
}
