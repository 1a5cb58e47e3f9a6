ghost use Rattle.std.specs.Prelude.{◌≡◌, ◌≤◌, List, ℕ, Option, length, IfOk, OnErr};
ghost use Rattle.mig_base.specs.Count.{HasCause};
ghost use Rattle.mig_base.specs.Stream.{Takes};

use crate::Failed;

/// A stream of bytes that are read once, in order.
pub trait Source {
    /// The bytes that weren't read yet, where the source tells them.
    ghost left: { Self → Option (List ℕ) };

    /// How many reads have failed.
    ghost faults: { Self → ℕ };

    /// Reads into the front of the buffer, and answers how many bytes. For a buffer that isn't empty, 0 is the end.
    ///
    /// # Errors
    ///
    /// `Failed` only where the count of faults rose. Nothing was read then.
    fn read(&mut self, buf: &mut [u8]) -> Result<usize, Failed>
        ensures within { IfOk result (λ n. n ≤ length buf.old) }
        ensures taken { IfOk result (λ n. Takes (left self.old) buf.new n (left self.new)) }
        ensures kept { OnErr result (left self.new ≡ left self.old) }
        ensures cause { HasCause (faults self.old) (faults self.new) result };
}
