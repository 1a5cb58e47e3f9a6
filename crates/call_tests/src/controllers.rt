//! The doorbells of a controller of one queue pair.

ghost use Rattle.std.specs.Prelude.{◌≡◌, IfOk, length};

use controller::{Controller, PairSet, Phase};
use mig_base::LaneNo;
use nvm_ring::BadDoorbell;
use std::alloc::Global;
use std::test::Fail;

/// A controller of one pair, with eight places in each ring.
fn one_pair(alloc: Global) -> Result<Controller, Fail>
    ensures { IfOk result (λ c. length c.pairs ≡ 1) }
{
    let set = PairSet {
        sq: 8,
        cq: 8,
        pages: 2,
    };
    Ok(
        Controller::make(alloc, &[set], 64, 3)
            .ok()
            .ok_or("controller")?,
    )
}

#[test]
fn bad_doorbells(rt: HostRuntime) -> Result<(), Fail> {
    let lane = LaneNo::new(1).ok_or("lane 1")?;
    let mut controller = one_pair(rt.alloc())?;
    assert!(rt; controller.phase() == Phase::Running);
    let value = 8;
    assert!(rt; controller.ring_sq(lane, value) == Err(BadDoorbell { value }));
    assert!(rt; controller.ring_cq(lane, value) == Err(BadDoorbell { value }));
    assert!(rt; controller.ring_cq(lane, 1) == Err(BadDoorbell { value: 1 }));
    assert!(rt; controller.ring_cq(lane, 0) == Ok(()));
    assert!(rt; controller.ring_sq(lane, 7) == Ok(()));
    Ok(())
}
