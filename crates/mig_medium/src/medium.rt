ghost use Rattle.std.specs.Prelude.{◌≡◌, ◌<◌, Bool, IfSome, is_err, length};
ghost use Rattle.nvm_model.specs.Medium.{IsCall, MediumState, got, marked, sent};
ghost use Rattle.nvm_model.specs.declared.trace.Step.{Step};

use mig_base::Failed;

/// Blocks of 512 bytes, numbered from 0, which are read and written whole.
pub trait Medium {
    /// A meaning of the medium's own, as plain data.
    ghost Inside: { Type 0 };

    /// What contracts see of a medium: its blocks and its steps as far as it tells them, how many calls have failed, the
    /// number of blocks, and its own meaning.
    ghost state: { Self → MediumState Inside };

    /// How a step takes that meaning on, with whether the call failed.
    ghost moves: { Inside → Step → Bool → Inside → Type 0 };

    /// The number of blocks, which no call changes.
    fn len(&self) -> u32
        ensures value { result ≡ (state self.now).size }
        ensures told { IfSome (state self.now).blocks (λ bs. length bs ≡ result) };

    /// Reads block `b` into `out`.
    ///
    /// # Errors
    ///
    /// `Failed` only where the count of faults rose. What `out` holds then isn't known.
    fn get(&mut self, b: u32, out: &mut [u8; 512]) -> Result<(), Failed>
        requires { b < (state self.old).size }
        ensures { IsCall moves (state self.old) (got b out.new result) (state self.new) };

    /// Writes block `b`, and no other.
    ///
    /// # Errors
    ///
    /// `Failed` only where the count of faults rose. Every block is then as before.
    fn put(&mut self, b: u32, from: &[u8; 512]) -> Result<(), Failed>
        requires { b < (state self.old).size }
        ensures { IsCall moves (state self.old) (sent b from.now (is_err result)) (state self.new) };

    /// Puts a mark into the trace, and does nothing else.
    fn mark(&mut self, n: u64)
        ensures { IsCall moves (state self.old) (marked n) (state self.new) };
}
