// The form `check`.
ghost use Rattle.std.specs.Prelude.{◌≡◌, ◌≤◌, ◌++◌, [], IfErr, IfOk, Some, length};
ghost use Rattle.mig_base.specs.Stream.{Writes};
ghost use Rattle.engine.specs.Checked.{HasVerdict, IsChecked, IsTold, IsUnjudged, verdict_status, verdict_text};
ghost use Rattle.engine.specs.Claims.{IsReadFault, IsWriteFault, OnRefused};
ghost use Rattle.engine.specs.StatusText.{fault_text};

use crate::Status;
use judge::{Fault, Verdict, check};
use line_buf::{LineBuf, write_last_line};
use mig_base::{CollectRefusal, Failed, OutOfMemory, Sink, Source, collect};
use script::{BadLine, ParseRefusal, parse_front};
use std::alloc::Global;

/// The longest input that is judged, in bytes: a script and a transcript behind it.
const MOST_JUDGED: usize = 67_108_864;

/// Judges the transcript that stands behind the script in the input, and writes what is said of it.
pub(crate) fn check_transcript<S: Source, K: Sink>(
    alloc: Global,
    input: &mut S,
    output: &mut K,
) -> Status
    ensures checked { IsChecked (S.left input.old) (K.bytes output.old) (K.bytes output.new) result }
    ensures before { OnRefused result (output.new ≡ output.old) }
    ensures read_fault { IsReadFault (S.faults input.old) (S.faults input.new) result }
    ensures write_fault { IsWriteFault (K.faults output.old) (K.faults output.new) result }
{
    let text = match collect(alloc, input, MOST_JUDGED) {
        Ok(text) => text,
        Err(CollectRefusal::Fault) => return Status::ReadFault,
        Err(CollectRefusal::TooLong) => return Status::TooLong,
        Err(CollectRefusal::OutOfMemory) => return Status::OutOfMemory,
    };
    match judge_text(alloc, text.as_slice()) {
        Ok(verdict) => tell(verdict, output),
        Err(status) => status,
    }
}

/// What the judge says of a script and a transcript behind it.
fn judge_text(alloc: Global, text: &[u8]) -> Result<Verdict, Status>
    requires { length text.now ≤ 67108864 }
    ensures judged { IfOk result (HasVerdict (Some text.now)) }
    ensures refusal { IfErr result (IsUnjudged text.now) }
{
    let (script, at) = match parse_front(alloc, text) {
        Ok(front) => front,
        Err(ParseRefusal::Bad(BadLine { line, why })) => {
            return Err(Status::BadScript { line, why });
        }
        Err(ParseRefusal::OutOfMemory) => return Err(Status::OutOfMemory),
    };
    match check(alloc, &script, &text[at..]) {
        Ok(verdict) => Ok(verdict),
        Err(OutOfMemory) => Err(Status::OutOfMemory),
    }
}

/// Writes what the judge says, and answers how the program ends then.
fn tell<K: Sink>(verdict: Verdict, output: &mut K) -> Status
    ensures told { IsTold verdict (K.bytes output.old) (K.bytes output.new) result }
    ensures fault { IsWriteFault (K.faults output.old) (K.faults output.new) result }
{
    match write_verdict(verdict, output) {
        Ok(()) => status_of(verdict),
        Err(Failed) => Status::WriteFault,
    }
}

fn status_of(verdict: Verdict) -> Status
    ensures { result ≡ verdict_status verdict }
{
    match verdict {
        Verdict::Yes => Status::Done,
        Verdict::No { line, why } => Status::Refused { line, why },
    }
}

fn write_verdict<K: Sink>(verdict: Verdict, output: &mut K) -> Result<(), Failed>
    ensures { Writes (verdict_text verdict) (K.bytes output.old) (K.bytes output.new)
        (K.faults output.old) (K.faults output.new) result }
{
    let mut line = LineBuf::new();
    push_verdict(verdict, &mut line);
    write_last_line(line.bytes(), output)
}

fn push_verdict(verdict: Verdict, line: &mut LineBuf)
    requires { line.old ≡ [] }
    ensures { line.new ≡ verdict_text verdict }
{
    match verdict {
        Verdict::Yes => line.push(b"yes\n"),
        Verdict::No { line: number, why } => {
            line.push(b"no ");
            line.push_field(number);
            push_fault(why, line);
        }
    }
}

/// What is wrong with a line, behind what the line has.
pub(crate) fn push_fault(why: Fault, line: &mut LineBuf)
    requires { length line.old ≤ 64 }
    ensures { line.new ≡ line.old ++ fault_text why }
{
    match why {
        Fault::Form => line.push(b"form\n"),
        Fault::Legal => line.push(b"legal\n"),
        Fault::Complete => line.push(b"complete\n"),
    }
}
