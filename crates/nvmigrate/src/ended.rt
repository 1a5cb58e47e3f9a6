// How the program ends.
ghost use Rattle.std.specs.Prelude.{◌≡◌};
ghost use Rattle.mig_base.specs.Stream.{Writes};
ghost use Rattle.nvmigrate.specs.EndText.{end_code, end_text};

use engine::Status;
use file_medium::OpenFault;
use line_buf::write_last_line;
use mig_base::{Failed, Sink};

/// How the program ends.
#[derive(Clone, Copy)]
pub(crate) enum Ended {
    /// The top call answered.
    Answered(Status),
    /// The file of a host wasn't opened. Nothing was read then, and nothing written.
    NotOpened(OpenFault),
    /// The top call answered, and what was written of a file didn't come to its disk.
    NotSynced(Status),
}

impl Ended {
    /// The exit status of the program.
    pub(crate) fn code(&self) -> u8
        ensures { result ≡ end_code self.now }
    {
        match *self {
            Ended::Answered(status) => status.code(),
            Ended::NotOpened(fault) => fault.code(),
            Ended::NotSynced(_) => 9,
        }
    }

    /// Writes what is said of it, a line, where there is something, and flushes the sink.
    ///
    /// # Errors
    ///
    /// `Failed` only where the sink's count of faults rose. A front of the text was written then: all of it, where the flush failed.
    pub(crate) fn write<E: Sink>(&self, errors: &mut E) -> Result<(), Failed>
        ensures { Writes (end_text self.now) (E.bytes errors.old) (E.bytes errors.new)
            (E.faults errors.old) (E.faults errors.new) result }
    {
        match *self {
            Ended::Answered(status) => status.write(errors),
            Ended::NotOpened(fault) => fault.write(errors),
            Ended::NotSynced(_) => write_last_line(b"host not synced\n", errors),
        }
    }
}
