ghost use Rattle.std.specs.Prelude.{◌≡◌, ◌<◌, ◌≤◌, List, ℕ, Option, length, take, IfOk, OnErr};
ghost use Rattle.mig_base.specs.Count.{HasCause};
ghost use Rattle.mig_base.specs.Stream.{with_more};

use crate::Failed;

/// A stream to which bytes are written, in order.
pub trait Sink {
    /// The bytes that were taken, where the sink tells them.
    ghost bytes: { Self → Option (List ℕ) };

    /// How many writes have failed.
    ghost faults: { Self → ℕ };

    /// Writes a front of the piece, and answers how many bytes were taken: at least 1 of a piece that isn't empty.
    ///
    /// # Errors
    ///
    /// `Failed` only where the count of faults rose. No byte was taken then, where the bytes are told.
    fn write(&mut self, piece: &[u8]) -> Result<usize, Failed>
        ensures within { IfOk result (λ n. n ≤ length piece.now) }
        ensures some { IfOk result (λ n. 0 < length piece.now → 0 < n) }
        ensures taken { IfOk result (λ n. bytes self.new ≡ with_more (take n piece.now) (bytes self.old)) }
        ensures kept { OnErr result (bytes self.new ≡ bytes self.old) }
        ensures cause { HasCause (faults self.old) (faults self.new) result };

    /// Hands on what was taken and stands in memory; a sink that keeps nothing back has nothing to do.
    ///
    /// # Errors
    ///
    /// `Failed` only where the count of faults rose.
    fn flush(&mut self) -> Result<(), Failed>
        ensures kept { bytes self.new ≡ bytes self.old }
        ensures cause { HasCause (faults self.old) (faults self.new) result }
    {
        Ok(())
    }
}
