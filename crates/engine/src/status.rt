ghost use Rattle.std.specs.Prelude.{◌≡◌, ◌≤◌, ◌++◌, [], codes, decimal, length};
ghost use Rattle.mig_base.specs.Stream.{Writes};
ghost use Rattle.engine.specs.StatusText.{code_of, fault_text, why_text, status_text};

use crate::checking::push_fault;
use judge::Fault;
use line_buf::{LineBuf, write_last_line};
use mig_base::{Failed, Sink};
use script::Why;

/// How a call of the program ended.
#[derive(Clone, Copy, Debug, PartialEq, Eq)]
pub enum Status {
    /// It came to its end.
    Done,
    /// The words aren't a form of the program's.
    Usage,
    /// The input isn't a script that is taken: its first bad line, from 1, and what is wrong with it.
    BadScript { line: u32, why: Why },
    /// The input is longer than a script may be.
    TooLong,
    /// There was no memory. Nothing was written.
    OutOfMemory,
    /// A host differs from the script: what it has, and what the script asks for.
    HostSize { kept: u64, asked: u64 },
    /// A read of the input failed.
    ReadFault,
    /// A write of the output failed.
    WriteFault,
    /// It came to its end, and the migration was given up where a medium failed.
    GaveUp,
    /// The transcript isn't right: its first line that is wrong, from 1, and what is wrong with it.
    Refused { line: u32, why: Fault },
}

impl Status {
    /// The exit status of the program.
    pub fn code(&self) -> u8
        ensures { result ≡ code_of self.now }
    {
        match self {
            Status::Done => 0,
            Status::Usage => 1,
            Status::BadScript { .. } | Status::TooLong => 2,
            Status::OutOfMemory => 3,
            Status::HostSize { .. } => 4,
            Status::ReadFault => 5,
            Status::WriteFault => 6,
            Status::GaveUp => 7,
            Status::Refused { .. } => 8,
        }
    }

    /// Writes the status's text, a line, where it has one, and flushes the sink.
    ///
    /// # Errors
    ///
    /// `Failed` only where the sink's count of faults rose. A front of the text was written then: all of it, where the flush failed.
    pub fn write<K: Sink>(&self, sink: &mut K) -> Result<(), Failed>
        ensures { Writes (status_text self.now) (K.bytes sink.old) (K.bytes sink.new)
            (K.faults sink.old) (K.faults sink.new) result }
    {
        let mut line = LineBuf::new();
        self.push(&mut line);
        write_last_line(line.bytes(), sink)
    }

    /// The status's text behind what the empty line has.
    fn push(&self, line: &mut LineBuf)
        requires { line.old ≡ [] }
        ensures { line.new ≡ status_text self.now }
    {
        match *self {
            Status::Done => {}
            Status::Usage => line.push(b"usage\n"),
            Status::BadScript { line: number, why } => push_bad_script(number, why, line),
            Status::TooLong => line.push(b"too long\n"),
            Status::OutOfMemory => line.push(b"out of memory\n"),
            Status::HostSize { kept, asked } => push_host_size(kept, asked, line),
            Status::ReadFault => line.push(b"read fault\n"),
            Status::WriteFault => line.push(b"write fault\n"),
            Status::GaveUp => line.push(b"gave up\n"),
            Status::Refused { line: number, why } => push_refused(number, why, line),
        }
    }
}

fn push_bad_script(number: u32, why: Why, line: &mut LineBuf)
    requires { line.old ≡ [] }
    ensures { line.new ≡ codes "bad script line " ++ decimal number ++ why_text why }
{
    line.push(b"bad script line ");
    line.push_number(number);
    push_why(why, line);
}

fn push_refused(number: u32, why: Fault, line: &mut LineBuf)
    requires { line.old ≡ [] }
    ensures { line.new ≡ codes "refused line " ++ decimal number ++ codes ": " ++ fault_text why }
{
    line.push(b"refused line ");
    line.push_number(number);
    line.push(b": ");
    push_fault(why, line);
}

fn push_why(why: Why, line: &mut LineBuf)
    requires { length line.old ≤ 64 }
    ensures { line.new ≡ line.old ++ why_text why }
{
    match why {
        Why::Form => line.push(b": form\n"),
        Why::Range => line.push(b": range\n"),
        Why::Cut => line.push(b": cut\n"),
        Why::More => line.push(b": more\n"),
    }
}

fn push_host_size(kept: u64, asked: u64, line: &mut LineBuf)
    requires { line.old ≡ [] }
    ensures { line.new ≡ codes "host size: kept " ++ decimal kept ++ codes " asked " ++ decimal asked ++ codes "\n" }
{
    line.push(b"host size: kept ");
    line.push_number64(kept);
    line.push(b" asked ");
    line.push_number64(asked);
    line.push(b"\n");
}
