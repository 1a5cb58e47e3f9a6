ghost use Rattle.std.specs.Prelude.{◌≡◌, ◌<◌, ◌≤◌, None, IfOk, length};
ghost use Rattle.std.specs.Io.KnownBytes.{Keeps, WriteAppends};
ghost use Rattle.mig_base.specs.Count.{HasCause};

use crate::{Failed, Sink};
use std::io::Write;
use std::marker::Model;

/// A writer of std as a sink. It tells no bytes. Each of the writer's errors raises its count by one, and so does each
/// write that takes nothing of a piece that isn't empty.
#[derive(Drop)]
pub struct WriteSink<W: Write> {
    inner: W,
    faults: u64,
}

impl<W: Write> Model for WriteSink<W> {
    ghost use Rattle.mig_base.specs.Adapter.{Adapter};

    ghost Value = { Adapter };

    ghost view = { λ s. record { known = W.contents s.inner; faults = s.faults } };
}

impl<W: Write> WriteSink<W> {
    /// The sink over that writer, which has had no fault.
    pub fn over(inner: W) -> WriteSink<W>
        ensures known { result.known ≡ W.contents inner }
        ensures faults { result.faults ≡ 0 }
    {
        WriteSink { inner, faults: 0 }
    }
}

impl<W: Write> Sink for WriteSink<W> {
    ghost bytes = { λ _. None };

    ghost faults = { λ s. s.faults };

    fn write(&mut self, piece: &[u8]) -> Result<usize, Failed>
        ensures within { IfOk result (λ n. n ≤ length piece.now) }
        ensures some { IfOk result (λ n. 0 < length piece.now → 0 < n) }
        ensures cause { HasCause self.old.faults self.new.faults result }

        // What the writer took is passed on.
        ensures wrote { WriteAppends self.old.known self.new.known result piece.now }
    {
        match self.inner.write(piece) {
            Ok(count) if count > 0 || piece.is_empty() => Ok(count),
            _ => {
                self.faults = self.faults.saturating_add(1);
                Err(Failed)
            }
        }
    }

    fn flush(&mut self) -> Result<(), Failed>
        ensures cause { HasCause self.old.faults self.new.faults result }

        // What the writer took stays.
        ensures kept { Keeps self.old.known self.new.known }
    {
        if self.inner.flush().is_err() {
            self.faults = self.faults.saturating_add(1);
            return Err(Failed);
        }
        Ok(())
    }
}
