//! A medium in memory, whose calls fail where they are told to.

use mig_base::Failed;
use mig_medium::{Medium, MemMedium, Step};
use std::alloc::Global;
use std::test::Fail;

/// Fills block `b` with that byte, through the bound that the product has.
fn fill<M: Medium + Send>(medium: &mut M, b: u32, byte: u8) -> Result<(), Failed> {
    if b < medium.len() {
        return medium.put(b, &[byte; 512]);
    }
    Ok(())
}

/// Copies a block to another.
fn copy<M: Medium + Send>(medium: &mut M, from: u32, to: u32) -> Result<(), Failed> {
    let mut block = [0; 512];
    if from < medium.len() {
        medium.get(from, &mut block)?;
        if to < medium.len() {
            return medium.put(to, &block);
        }
    }
    Ok(())
}

/// Whether block `b` is there and holds that byte alone.
fn is_full(medium: &MemMedium, b: u32, byte: u8) -> bool {
    b < medium.len() && medium.block(b).iter().all(|x| *x == byte)
}

/// Three blocks and room for five steps. The second get and the third put fail.
fn three_blocks(alloc: Global) -> Result<MemMedium, Fail> {
    let gets = vec![in alloc; 2]?;
    let puts = vec![in alloc; 3]?;
    let made = MemMedium::make(alloc, 3, 5, gets, puts);
    Ok(made.map_err(|_| "not made")?)
}

#[test]
fn a_medium_in_memory(rt: HostRuntime) -> Result<(), Fail> {
    let mut medium = three_blocks(rt.alloc())?;
    assert!(rt; medium.len() == 3);
    assert!(rt; is_full(&medium, 2, 0));
    assert!(rt; fill(&mut medium, 1, 7) == Ok(()));
    assert!(rt; copy(&mut medium, 1, 2) == Ok(()));
    assert!(rt; copy(&mut medium, 0, 2) == Err(Failed));
    medium.mark(8);
    let told = [
        Step::Put(1),
        Step::Get(1),
        Step::Put(2),
        Step::Get(0),
        Step::Mark(8),
    ];
    assert!(rt; medium.trace() == Some(told.as_slice()));
    assert!(rt; fill(&mut medium, 0, 8) == Err(Failed));
    assert!(rt; medium.trace() == None);
    assert!(rt; is_full(&medium, 0, 0) && is_full(&medium, 2, 7));
    Ok(())
}
