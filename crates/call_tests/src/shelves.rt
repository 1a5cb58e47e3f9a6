//! A shelf: its entries, and the calls of its medium.

ghost use Rattle.std.specs.Prelude.{◌≡◌, ◌<◌, IfOk, length};

use guest_ram::Ram;
use mig_base::{Failed, LaneNo, Span};
use mig_medium::{Medium, MemMedium, Step};
use nvm_blocks::{Outcome, Piece, Shelf};
use nvm_model::Pages;
use nvm_values::Op;
use std::alloc::Global;
use std::test::Fail;

/// A shelf of eight blocks, whose first is block 16 of the namespace, with room for four entries. Its second get and its ninth put fail.
fn make_shelf(alloc: Global) -> Result<Shelf<MemMedium>, Fail>
    ensures place { IfOk result (λ s. (s.first ≡ 16) × (length s.medium.blocks ≡ 8)) }
    ensures room { IfOk result (λ s. length s.entries < s.room) }
{
    let gets = vec![in alloc; 2]?;
    let puts = vec![in alloc; 9]?;
    let medium = MemMedium::make(alloc, 8, 32, gets, puts)
        .ok()
        .ok_or("medium")?;
    Ok(Shelf::make(alloc, medium, 16, 4).ok().ok_or("shelf")?)
}

/// Zeroes for blocks 21 and 22.
fn zeroes(lane: LaneNo) -> Piece
    ensures { (result.op ≡ Op.WriteZeroes) × (result.span.first ≡ 21) × (result.span.count ≡ 2) }
{
    let (first, count) = (21, 2);
    let (list, used) = ([0; 8], 0);
    Piece {
        lane,
        cid: 5,
        op: Op::WriteZeroes,
        span: Span { first, count },
        at: 0,
        pages: Pages { list, used },
    }
}

/// Shelves and windows go to the threads that do the pieces.
fn may_be_sent<T: Send>(_: &T) {}

#[test]
fn a_shelf(rt: HostRuntime) -> Result<(), Fail> {
    let lane = LaneNo::new(1).ok_or("lane 1")?;
    let mut ram = Ram::make(rt.alloc(), &[1]).ok().ok_or("memory")?;
    let w = &mut ram.windows()[0];
    let mut shelf = make_shelf(rt.alloc())?;
    may_be_sent(&shelf);
    may_be_sent(&*w);
    assert!(rt; shelf.put(21, &[0x11; 512]) == Ok(()));
    shelf.medium().mark(9);
    let mut out = [0; 512];
    assert!(rt; shelf.copy_out(21, &mut out) == Ok(()));
    assert!(rt; out == [0x11; 512]);
    assert!(rt; shelf.copy_out(16, &mut out) == Err(Failed));
    let result = shelf.apply(&zeroes(lane), 3, 7, w);
    assert!(rt; result.outcome == Outcome::Done && result.digest == [0; 32]);
    let last = shelf.entries().last().ok_or("entry")?;
    assert!(rt; last.lane == lane && last.index == 3 && last.ticket == 7 && last.result == result);
    shelf.clear();
    assert!(rt; shelf.entries().is_empty());
    let medium = shelf.into_medium();
    let told = [
        Step::Put(5),
        Step::Mark(9),
        Step::Get(5),
        Step::Get(0),
        Step::Put(5),
        Step::Put(6),
    ];
    assert!(rt; medium.trace() == Some(told.as_slice()));
    Ok(())
}
