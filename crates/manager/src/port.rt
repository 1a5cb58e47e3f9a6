ghost use Rattle.std.specs.Prelude.{◌≤◌, ◌<◌, IfSome, List, ℕ};
ghost use Rattle.data_queue.specs.Change.{IsChange};
ghost use Rattle.manager.specs.Port.{HasPage, IsPortCall, MayCommand, PortCall, PortState, WorksAtBoth, side_of};
ghost use Rattle.manager.specs.Port.PortCall.{Admin, CopyPage, Mark};
ghost use Rattle.manager.specs.Work.{IsWorkCall, WorkCall, WorkState};
ghost use Rattle.manager.specs.Work.WorkCall.{Copy, Take};

use crate::{CopyAnswer, Side};
use adm_values::{AdminCmd, AdminCpl};
use data_queue::Change;

/// A port between the two sides of a move, as far as blocks are copied and changes taken.
pub trait WorkPort {
    /// A meaning of the port's own, as plain data: what its calls did to the media, say.
    ghost Inside: { Type 0 };

    /// What contracts see of the port: the number of blocks of each side, how many calls are left, and its own meaning.
    ghost work: { Self → WorkState Inside };

    /// How a call, with its arguments and its answer, takes that meaning on.
    ghost works: { Inside → WorkCall → Inside → Type 0 };

    /// What each call needs of that meaning, and keeps.
    ghost seated: { Inside → Type 0 };

    /// Reads block `b`, which both sides have, at the source, and writes it at the destination. It needs one of the calls
    /// that are left, and takes one at most.
    fn copy(&mut self, b: u32) -> CopyAnswer
        requires left { 1 ≤ (work self.old).left }
        requires there { b < (work self.old).count }
        requires seated { seated (work self.old).inside }
        ensures called { (bytes : List ℕ) × IsWorkCall works 1 (work self.old) (Copy b bytes result) (work self.new) }
        ensures seated { seated (work self.new).inside };

    /// Takes the oldest change that isn't taken: `None` where there is none. It takes none of the calls that are left.
    fn take(&mut self) -> Option<Change>
        requires { seated (work self.old).inside }
        ensures change { IfSome result IsChange }
        ensures called { IsWorkCall works 0 (work self.old) (Take result) (work self.new) }
        ensures seated { seated (work self.new).inside };
}

/// A port over which a move can be brought to its end. Every call but `take` needs one of the calls that are left, and takes
/// one at most.
pub trait Port: WorkPort {
    /// A meaning of the port's own, beside both sides.
    ghost Meaning: { Type 0 };

    /// What contracts see of the port: both sides, the number of blocks of each, how many calls are left, and its own
    /// meaning.
    ghost state: { Self → PortState Meaning };

    /// How a call, with its arguments and its answer, takes that meaning on.
    ghost moves: { Meaning → PortCall → Meaning → Type 0 };

    /// Sends an admin command of host managed live migration to the controller of a side. `bytes` is its buffer, of the
    /// length that the command names.
    fn admin(&mut self, side: Side, cmd: &AdminCmd, bytes: &mut [u8]) -> AdminCpl
        requires left { 1 ≤ (state self.old).left }
        requires may { MayCommand (side_of side (state self.old)) cmd.now bytes.old }
        ensures { IsPortCall moves (state self.old) (Admin side cmd.now bytes.old result bytes.new) (state self.new) };

    /// Copies a window page, which both sides have, from the source to the destination.
    fn copy_page(&mut self, page: u32)
        requires left { 1 ≤ (state self.old).left }
        requires there { HasPage (state self.old) page }
        ensures { IsPortCall moves (state self.old) (CopyPage page) (state self.new) };

    /// Puts a mark into the trace of every medium of both sides.
    fn mark(&mut self, n: u64)
        requires { 1 ≤ (state self.old).left }
        ensures { IsPortCall moves (state self.old) (Mark n) (state self.new) };

    /// Work over the port is seen at both sides, and can be done at any time.
    ghost both: { WorksAtBoth Self.work Self.works Self.seated state moves };
}
