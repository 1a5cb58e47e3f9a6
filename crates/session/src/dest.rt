ghost use Rattle.std.specs.Prelude.{◌<◌, ◌≤◌, is_err, length};
ghost use Rattle.manager.specs.Port.{MayCommand};
ghost use Rattle.session.specs.Port.{DestCall, DestState, IsDestCall};
ghost use Rattle.session.specs.Port.DestCall.{Put, Page, Admin, Mark};

use manager::{AdminCmd, AdminCpl};
use mig_base::Failed;

/// The other side of a move: a place here, and later the near end of a link. Every call needs one of the calls that are
/// left, and takes one at most.
pub trait Dest {
    /// A meaning of its own, as plain data: what its calls did to the media, say.
    ghost Inside: { Type 0 };

    /// What contracts see of it: what a manager sees, the number of blocks, how many calls are left, and a meaning of its
    /// own.
    ghost state: { Self → DestState Inside };

    /// How a call, with its answer and the bytes that went through it, takes that meaning on.
    ghost moves: { Inside → DestCall → Inside → Type 0 };

    /// Writes block `b`, which is there, and no other.
    ///
    /// # Errors
    ///
    /// `Failed` only where its count of faults rose. Every block is then as before.
    fn put(&mut self, b: u32, bytes: &[u8; 512]) -> Result<(), Failed>
        requires left { 1 ≤ (state self.old).left }
        requires there { b < (state self.old).count }
        ensures { IsDestCall moves (state self.old) (Put b bytes.now (is_err result)) (state self.new) };

    /// Writes a window page, which is there, and no other. Numbers count over all lanes: the window pages of lane 1,
    /// then those of lane 2, and so on, from 0.
    fn page(&mut self, page: u32, bytes: &[u8; 4096])
        requires left { 1 ≤ (state self.old).left }
        requires there { page < length (state self.old).side.pages }
        ensures { IsDestCall moves (state self.old) (Page page bytes.now) (state self.new) };

    /// Sends an admin command of host managed live migration to its controller. `bytes` is the command's buffer, of the
    /// length that it names. No command of a guest is under way there.
    fn admin(&mut self, cmd: &AdminCmd, bytes: &mut [u8]) -> AdminCpl
        requires left { 1 ≤ (state self.old).left }
        requires may { MayCommand (state self.old).side cmd.now bytes.old }
        ensures { IsDestCall moves (state self.old) (Admin cmd.now bytes.old result bytes.new) (state self.new) };

    /// Puts a mark into the trace of every medium there.
    fn mark(&mut self, n: u64)
        requires { 1 ≤ (state self.old).left }
        ensures { IsDestCall moves (state self.old) (Mark n) (state self.new) };
}
