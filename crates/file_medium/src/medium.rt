ghost use Rattle.std.specs.Prelude.{◌≡◌, ◌<◌, is_err};
ghost use Rattle.mig_base.specs.Count.{HasCause};
ghost use Rattle.nvm_model.specs.Medium.{got, sent};
ghost use Rattle.file_medium.specs.Part.{IsPartCall, place_of, state_of};
ghost use Rattle.mig_medium.specs.Memory.{no_moves};

use crate::transfer::{read_whole, write_whole};
use mig_base::Failed;
use mig_medium::Medium;
use std::fs::OpenFile;
use std::marker::Model;
use std::os::unix::fs::FileExt;

/// A part of an open file as a medium. It tells no blocks and no trace.
#[derive(Drop)]
pub struct FileMedium<F> {
    file: F,
    first: u32,
    size: u32,
    faults: u64,
}

impl<F> Model for FileMedium<F> {
    ghost use Rattle.file_medium.specs.Part.{Part};

    ghost Value = { Part };

    ghost view = { λ m. record { first = m.first; size = m.size; faults = m.faults } };
}

impl<F> FileMedium<F> {
    /// The `size` blocks of the file from its block `first` on, of which no call has failed. The file is open for reading
    /// and writing.
    pub fn over(file: F, first: u32, size: u32) -> FileMedium<F>
        ensures { result ≡ record { first = first; size = size; faults = 0 } }
    {
        FileMedium {
            file,
            first,
            size,
            faults: 0,
        }
    }
}

impl<F: OpenFile> FileMedium<F> {
    /// Has what was written of the file, by this part or another, brought to its disk.
    ///
    /// # Errors
    ///
    /// `Failed` only where the count of faults rose. What the disk has isn't known then.
    pub fn sync(&mut self) -> Result<(), Failed>
        ensures cause { HasCause self.old.faults self.new.faults result }
        ensures rest { self.new ≡ record self.old { faults = self.new.faults } }
    {
        let done = self.file.sync_all().map_err(|_| Failed);
        counted(&mut self.faults, done)
    }
}

impl<F: FileExt> Medium for FileMedium<F> {
    ghost Inside = { Unit {0} };

    ghost state = { λ m. state_of m };

    ghost moves = { λ old step failed new. no_moves old step failed new };

    fn len(&self) -> u32 {
        self.size
    }

    fn get(&mut self, b: u32, out: &mut [u8; 512]) -> Result<(), Failed>
        requires { b < self.old.size }
        ensures call { IsPartCall self.old (got b out.new result) self.new }

        // The count rises with a failed call alone, and nothing else changes.
        ensures cause { HasCause self.old.faults self.new.faults result }
        ensures rest { self.new ≡ record self.old { faults = self.new.faults } }
    {
        let done = read_whole(&self.file, place(self.first, b), out);
        counted(&mut self.faults, done)
    }

    fn put(&mut self, b: u32, from: &[u8; 512]) -> Result<(), Failed>
        requires { b < self.old.size }
        ensures call { IsPartCall self.old (sent b from.now (is_err result)) self.new }

        // The count rises with a failed call alone, and nothing else changes.
        ensures cause { HasCause self.old.faults self.new.faults result }
        ensures rest { self.new ≡ record self.old { faults = self.new.faults } }
    {
        let done = write_whole(&self.file, place(self.first, b), from);
        counted(&mut self.faults, done)
    }

    fn mark(&mut self, n: u64)
        ensures { self.new ≡ self.old }
    {}
}

/// The byte of the file at which a block begins.
fn place(first: u32, b: u32) -> u64
    ensures { result ≡ place_of first b }
{
    (u64::from(first) + u64::from(b)) * 512
}

/// Counts a fault where the call failed, and answers how it ended.
fn counted(faults: &mut u64, done: Result<(), Failed>) -> Result<(), Failed>
    ensures answer { result ≡ done }
    ensures cause { HasCause faults.old faults.new result }
{
    if done.is_err() {
        *faults = faults.saturating_add(1);
    }
    done
}
