//! Changes, and logs to which they are posted.
ghost use Rattle.std.specs.Prelude.{◌≡◌, ◌<◌, ◌≤◌, IfOk, false, length, true};
ghost use Rattle.data_queue.specs.Change.{IsChange};

use data_queue::{Change, DataQueue};
use mig_base::Span;
use std::alloc::Global;
use std::test::Fail;

/// The change of one block.
pub(crate) fn change(first: u32) -> Change
    requires { first < 131072 }
    ensures { IsChange result }
{
    Change {
        span: Span { first, count: 1 },
    }
}

/// A live queue of so many cells.
pub(crate) fn live_queue(alloc: Global, cells: u32) -> Result<DataQueue, Fail>
    requires { (2 ≤ cells) × (cells ≤ 65536) }
    ensures { IfOk result (λ q. (q.live ≡ true) × (q.marked ≡ false) × (length q.cells ≡ cells)) }
{
    let mut queue = DataQueue::make(alloc, cells).ok().ok_or("queue")?;
    if !queue.create() {
        return Err(Fail::from("not created"));
    }
    Ok(queue)
}
