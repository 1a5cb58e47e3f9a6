ghost use Rattle.std.specs.Prelude.{◌≡◌, []};
ghost use Rattle.mig_base.specs.Stream.{Writes};
ghost use Rattle.file_medium.specs.FaultText.{code_of, fault_text};

use line_buf::{LineBuf, write_last_line};
use mig_base::{Failed, Sink};
use std::alloc::AllocError;

/// Why a file wasn't opened as media.
#[derive(Clone, Copy, Debug, PartialEq, Eq)]
pub enum OpenFault {
    /// A call of the file system was refused.
    Failed,
    /// The file has another length than that of the blocks: this one, in bytes.
    WrongLength { got: u64 },
    /// There was no memory for the media.
    OutOfMemory,
}

impl From<AllocError> for OpenFault {
    ghost use Rattle.std.specs.Prelude.{◌≡◌};
    ghost use Rattle.file_medium.specs.declared.fault.OpenFault.TheVariants.{OutOfMemory};

    ghost from_gives = { λ _ e. e ≡ OutOfMemory };

    fn from(_: AllocError) -> OpenFault {
        OpenFault::OutOfMemory
    }
}

impl OpenFault {
    /// The exit status of a program that ends with it: 3 for want of memory, and else 9.
    pub fn code(&self) -> u8
        ensures { result ≡ code_of self.now }
    {
        match self {
            OpenFault::OutOfMemory => 3,
            OpenFault::Failed | OpenFault::WrongLength { .. } => 9,
        }
    }

    /// Writes the fault's text, a line, and flushes the sink.
    ///
    /// # Errors
    ///
    /// `Failed` only where the sink's count of faults rose. A front of the text was written then: all of it, where the flush failed.
    pub fn write<K: Sink>(&self, sink: &mut K) -> Result<(), Failed>
        ensures { Writes (fault_text self.now) (K.bytes sink.old) (K.bytes sink.new)
            (K.faults sink.old) (K.faults sink.new) result }
    {
        let mut line = LineBuf::new();
        self.push(&mut line);
        write_last_line(line.bytes(), sink)
    }

    /// The fault's text behind what the empty line has.
    fn push(&self, line: &mut LineBuf)
        requires { line.old ≡ [] }
        ensures { line.new ≡ fault_text self.now }
    {
        match *self {
            OpenFault::Failed => line.push(b"host not opened\n"),
            OpenFault::WrongLength { got } => push_length(got, line),
            OpenFault::OutOfMemory => line.push(b"out of memory\n"),
        }
    }
}

fn push_length(got: u64, line: &mut LineBuf)
    requires { line.old ≡ [] }
    ensures { line.new ≡ fault_text (OpenFault.WrongLength got) }
{
    line.push(b"host length: got ");
    line.push_number64(got);
    line.push(b"\n");
}
