ghost use Rattle.std.specs.Prelude.{◌≡◌, ◌≤◌, None, IfOk, length};
ghost use Rattle.std.specs.Io.KnownBytes.{ReadConsumes};
ghost use Rattle.mig_base.specs.Count.{HasCause};

use crate::{Failed, Source};
use std::io::Read;
use std::marker::Model;

/// A reader of std as a source. It tells no bytes, and each of the reader's errors raises its count by one.
#[derive(Drop)]
pub struct ReadSource<R: Read> {
    inner: R,
    faults: u64,
}

impl<R: Read> Model for ReadSource<R> {
    ghost use Rattle.mig_base.specs.Adapter.{Adapter};

    ghost Value = { Adapter };

    ghost view = { λ s. record { known = R.remaining s.inner; faults = s.faults } };
}

impl<R: Read> ReadSource<R> {
    /// The source over that reader, which has had no fault.
    pub fn over(inner: R) -> ReadSource<R>
        ensures known { result.known ≡ R.remaining inner }
        ensures faults { result.faults ≡ 0 }
    {
        ReadSource { inner, faults: 0 }
    }
}

impl<R: Read> Source for ReadSource<R> {
    ghost left = { λ _. None };

    ghost faults = { λ s. s.faults };

    fn read(&mut self, buf: &mut [u8]) -> Result<usize, Failed>
        ensures within { IfOk result (λ n. n ≤ length buf.old) }
        ensures cause { HasCause self.old.faults self.new.faults result }

        // What the reader gave is passed on.
        ensures read { ReadConsumes self.old.known self.new.known result buf.new }
    {
        match self.inner.read(buf) {
            Ok(count) => Ok(count),
            Err(_) => {
                self.faults = self.faults.saturating_add(1);
                Err(Failed)
            }
        }
    }
}
