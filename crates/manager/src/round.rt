// What is done after a turn: changes are taken, logging is started again, and pages are copied.
ghost use Rattle.std.specs.Prelude.{◌≡◌, ◌≤◌, List, length, replicate, true};
ghost use Rattle.data_queue.specs.declared.change.Change.{Change as TheChange};
ghost use Rattle.manager.specs.Move.{IsQuiet};
ghost use Rattle.manager.specs.Round.{CreatesLog, DrainsAll, EndsLog, IsLogged, IsUnlogged, StartsLog};
ghost use Rattle.manager.specs.Work.{owe_changes};

use crate::owed::Owed;
use crate::port::Port;
use crate::side::Side;
use crate::steps::send;
use adm_values::What;
use nvm_values::Status;

/// The number of the queue of changes.
const QUEUE: u16 = 1;

/// The command that starts logging.
const START: What = What::LogUserData {
    start: true,
    queue: QUEUE,
};

/// Takes all changes that aren't taken: their blocks are owed.
pub(crate) fn take_all<P: Port>(owed: &mut Owed, port: &mut P)
    requires size { length owed.old ≤ 131072 }
    requires live { (P.state port.old).from.controller.queue.live ≡ true }
    ensures drains { (changes : List TheChange) × DrainsAll P.moves changes (P.state port.old) (P.state port.new) × (owed.new ≡ owe_changes changes owed.old) }
    ensures long { length owed.new ≡ length owed.old }
{
    'takes: loop {
        match port.take() {
            Some(change) => owed.owe_span(change),
            None => return,
        }
    }
}

/// Makes the source's queue of changes, of so many cells, and starts logging into it.
pub(crate) fn create_log<P: Port>(cells: u32, port: &mut P)
    requires cells { (2 ≤ cells) × (cells ≤ 65536) }
    requires left { 2 ≤ (P.state port.old).left }
    requires quiet { IsQuiet (P.state port.old).from }
    requires unlogged { IsUnlogged cells (P.state port.old).from }
    ensures { CreatesLog P.moves cells (P.state port.old) (P.state port.new) }
{
    let _made = send(Side::From, What::CreateQueue { cells }, &mut [], port);
    let _started = send(Side::From, START, &mut [], port);
}

/// Starts logging at the source, and answers whether a change was lost before. Then its queue is made anew, of so many cells.
pub(crate) fn start_log<P: Port>(cells: u32, port: &mut P) -> bool
    requires cells { (2 ≤ cells) × (cells ≤ 65536) }
    requires left { 4 ≤ (P.state port.old).left }
    requires quiet { IsQuiet (P.state port.old).from }
    requires logged { IsLogged cells (P.state port.old).from }
    ensures { StartsLog P.moves cells result (P.state port.old) (P.state port.new) }
{
    if send(Side::From, START, &mut [], port).status == Status::SUCCESS {
        return false;
    }
    let _gone = send(
        Side::From,
        What::DeleteQueue { queue: QUEUE },
        &mut [],
        port,
    );
    create_log(cells, port);
    true
}

/// Ends logging at the source, and deletes its queue of changes.
pub(crate) fn end_log<P: Port>(port: &mut P)
    requires left { 2 ≤ (P.state port.old).left }
    requires quiet { IsQuiet (P.state port.old).from }
    requires live { (P.state port.old).from.controller.queue.live ≡ true }
    ensures { EndsLog P.moves (P.state port.old) (P.state port.new) }
{
    let stop = What::LogUserData {
        start: false,
        queue: QUEUE,
    };
    let _stopped = send(Side::From, stop, &mut [], port);
    let _gone = send(
        Side::From,
        What::DeleteQueue { queue: QUEUE },
        &mut [],
        port,
    );
}
