// The form `show`.
ghost use Rattle.std.specs.Prelude.{◌≡◌};
ghost use Rattle.engine.specs.Claims.{IsLong, IsReadFault, IsShown, IsWriteFault, OnRefused};

use crate::Status;
use crate::reading::read_script;
use mig_base::{Failed, Sink, Source};
use show::show;
use std::alloc::Global;

/// Writes what the script in the input asks for, and the Identify data that its guests see.
pub(crate) fn show_script<S: Source, K: Sink>(
    alloc: Global,
    input: &mut S,
    output: &mut K,
) -> Status
    ensures shown { IsShown (S.left input.old) (K.bytes output.old) (K.bytes output.new) result }
    ensures before { OnRefused result (output.new ≡ output.old) }
    ensures too_long { IsLong (S.left input.old) result }
    ensures read_fault { IsReadFault (S.faults input.old) (S.faults input.new) result }
    ensures write_fault { IsWriteFault (K.faults output.old) (K.faults output.new) result }
{
    let script = match read_script(alloc, input) {
        Ok(script) => script,
        Err(status) => return status,
    };
    match show(&script, output) {
        Ok(()) => Status::Done,
        Err(Failed) => Status::WriteFault,
    }
}
