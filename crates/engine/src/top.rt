// The top call.
ghost use Rattle.std.specs.Prelude.{◌≡◌, ◌≤◌, ◌/◌, ◌++◌, [], IfOk, IfErr, map, string_bytes};
ghost use Rattle.nvm_model.specs.Medium.{sizes_in};
ghost use Rattle.nvm_blocks.specs.Namespace.{media_of};
ghost use Rattle.nvm_model.specs.Run.{start_of};
ghost use Rattle.nvm_model.specs.Told.{serial};
ghost use Rattle.ctl_state.specs.declared.phase.Phase.TheVariants.{Loading, Running};
ghost use Rattle.session.specs.Opened.{IsNewPlace};
ghost use Rattle.session.specs.Sides.{IsNewSession, sink};
ghost use Rattle.engine.specs.declared.status.Status.TheVariants.{Usage};
ghost use Rattle.engine.specs.Built.{IsTaken, Spells};
ghost use Rattle.engine.specs.Checked.{IsChecked};
ghost use Rattle.engine.specs.Claims.{HasReadCause, IsAsBefore, IsRefusal, OnRefused, OnRun};
ghost use Rattle.engine.specs.Claims.{IsBadRun, IsBadScript, IsHostSize, IsLong, IsReadFault, IsShown};
ghost use Rattle.engine.specs.Claims.{IsUsage, IsWriteFault};
ghost use Rattle.engine.specs.Headline.{HasGone, IsRun, hosts};
ghost use Rattle.engine.specs.Sizes.{HaveSizes, sizes_of, first_difference};
ghost use Rattle.engine.specs.Words.{IfChecks, IfRuns, IfShows, UnlessChecks};

use crate::Status;
use crate::checking::check_transcript;
use crate::hosts::{host_difference, open_places, shut_place};
use crate::reading::{read_script, unbuilt_line};
use crate::showing::show_script;
use crate::words::{Form, asked_form};
use guest_ram::Host;
use mig_base::{Failed, Gate, OutOfMemory, Sink, Source};
use mig_medium::Medium;
use script::{Head, Why};
use session::{Ending, Place, Session, run};
use std::alloc::Global;
use std::thread::Threads;

/// Does what the words say with the script in the input: `run serial BLOCKS SHELF` runs it over the hosts and writes
/// the transcript, `show` writes what it asks for and the Identify data that its guests see, and `check` judges a
/// transcript that stands behind it.
///
/// A run takes all its memory before its first line. Where nothing was run, nothing was written, and both hosts are as
/// they were.
pub fn nvmigrate<R: Threads + Sync, S: Source, K: Sink, M: Medium + Send, G: Gate>(
    rt: &R,
    alloc: Global,
    words: &[String],
    input: &mut S,
    output: &mut K,
    from: &mut Host<M>,
    to: &mut Host<M>,
    gate: &G,
) -> Status
    // One run of the script that the input spelled, whether it came to its end or the output failed.
    ensures ran { IfRuns (map string_bytes words.now) (OnRun result (IsRun M.state M.moves (S.left input.old)
        (hosts from.old to.old (sink (K.bytes output.old) (K.faults output.old))) result
        (hosts from.new to.new (sink (K.bytes output.new) (K.faults output.new))))) }
    ensures before_run { OnRefused result ((output.new ≡ output.old)
        × IsAsBefore from.old from.new × IsAsBefore to.old to.new) }
    ensures usage { IsUsage (map string_bytes words.now) result }
    // Nothing is read, and nothing touched, where the words ask for nothing.
    ensures unread { result ≡ Usage → (input.new ≡ input.old) × (from.new ≡ from.old) × (to.new ≡ to.old) }
    ensures bad_script { IfRuns (map string_bytes words.now) (IsBadScript (S.left input.old) result) }
    // The line and the cause that it tells are those of the first line that isn't right.
    ensures bad_line { IfRuns (map string_bytes words.now) (IsBadRun (S.left input.old) result) }
    // The word `show`: the output took the script's plan, or a front of it, and neither host was touched.
    ensures shown { IfShows (map string_bytes words.now) (IsShown (S.left input.old)
        (K.bytes output.old) (K.bytes output.new) result) }
    ensures untouched { IfShows (map string_bytes words.now) ((from.new ≡ from.old) × (to.new ≡ to.old)) }
    // The word `check`: the output took what is true of the transcript behind the script, and the answer says the same.
    ensures checked { IfChecks (map string_bytes words.now) (IsChecked (S.left input.old)
        (K.bytes output.old) (K.bytes output.new) result) }
    ensures kept { IfChecks (map string_bytes words.now) ((from.new ≡ from.old) × (to.new ≡ to.old)) }
    ensures too_long { UnlessChecks (map string_bytes words.now) (IsLong (S.left input.old) result) }
    ensures host_size { IfRuns (map string_bytes words.now) (IsHostSize (S.left input.old)
        (sizes_in M.state from.old.shelves.items) (sizes_in M.state to.old.shelves.items) result) }
    ensures read_fault { IsReadFault (S.faults input.old) (S.faults input.new) result }
    ensures write_fault { IsWriteFault (K.faults output.old) (K.faults output.new) result }
{
    match asked_form(words) {
        None => return Status::Usage,
        Some(Form::Show) => return show_script(alloc, input, output),
        Some(Form::Check) => return check_transcript(alloc, input, output),
        Some(Form::RunSerial) => {}
    }
    let (head, session) = match prepare(alloc, input, from, to) {
        Ok(ready) => ready,
        Err(status) => return status,
    };
    let (source, destination) = match open_places(alloc, &head, from, to) {
        Ok(places) => places,
        Err(OutOfMemory) => return Status::OutOfMemory,
    };
    match run_places(session, source, destination, output, from, to) {
        Ok(Ending::Done) => Status::Done,
        Ok(Ending::GaveUp) => Status::GaveUp,
        Err(Failed) => Status::WriteFault,
    }
}

/// What comes before the hosts are opened: the script, hosts that fit, and a session.
fn prepare<S: Source, M: Medium>(
    alloc: Global,
    input: &mut S,
    from: &Host<M>,
    to: &Host<M>,
) -> Result<(Head, Session), Status>
    ensures taken { IfOk result (λ r. IsTaken r.1.script × (r.0 ≡ r.1.script.head)) }
    ensures spelled { IfOk result (λ r. Spells (S.left input.old) r.1.script) }
    ensures new { IfOk result (λ r. IsNewSession r.1.script r.1 × HaveSizes r.1.script
        (sizes_in M.state from.now.shelves.items) (sizes_in M.state to.now.shelves.items)) }
    ensures refusal { IfErr result (IsRefusal (S.left input.old)
        (sizes_in M.state from.now.shelves.items) (sizes_in M.state to.now.shelves.items)) }
    ensures cause { HasReadCause (S.faults input.old) (S.faults input.new) result }
{
    let script = match read_script(alloc, input) {
        Ok(script) => script,
        Err(status) => return Err(status),
    };
    let head = script.head;
    if let Some(line) = unbuilt_line(&head) {
        return Err(Status::BadScript {
            line,
            why: Why::Range,
        });
    }
    if let Some((kept, asked)) = hosts_difference(&head, from, to) {
        return Err(Status::HostSize { kept, asked });
    }
    match Session::make(alloc, script) {
        Ok(session) => Ok((head, session)),
        Err(_) => Err(Status::OutOfMemory),
    }
}

/// The first size of either host that differs from those of the script: what it is, and what is asked.
fn hosts_difference<M: Medium>(head: &Head, from: &Host<M>, to: &Host<M>) -> Option<(u64, u64)>
    requires { 1 ≤ head.now.shelf }
    ensures first { result ≡ first_difference
        (sizes_of (sizes_in M.state from.now.shelves.items) (head.now.blocks / head.now.shelf) head.now.shelf
        ++ sizes_of (sizes_in M.state to.now.shelves.items) (head.now.blocks / head.now.shelf) head.now.shelf) }
{
    let shelf = u64::from(head.shelf);
    let count = u64::from(head.blocks) / shelf;
    match host_difference(from, count, shelf) {
        Some(difference) => Some(difference),
        None => host_difference(to, count, shelf),
    }
}

/// Runs a session over two places, which are shut afterwards: the hosts get their media and their guests' memory.
fn run_places<K: Sink, M: Medium>(
    session: Session,
    source: Place<M>,
    destination: Place<M>,
    output: &mut K,
    from: &mut Host<M>,
    to: &mut Host<M>,
) -> Result<Ending, Failed>
    requires new { IsTaken session.script × IsNewSession session.script session }
    requires source { IsNewPlace Running session.script.head (media_of source.namespace) source }
    requires destination { IsNewPlace Loading session.script.head (media_of destination.namespace) destination }
    requires empty { (from.old.shelves.items ≡ []) × (to.old.shelves.items ≡ []) }
    ensures gone { HasGone M.state M.moves (start_of (serial session.script) (media_of source.namespace)
        (media_of destination.namespace) (sink (K.bytes output.old) (K.faults output.old))) result
        (hosts from.new to.new (sink (K.bytes output.new) (K.faults output.new))) }
{
    let mut session = session;
    let mut source = source;
    let mut destination = destination;
    let ended = run(&mut session, &mut source, &mut destination, output);
    shut_place(from, source);
    shut_place(to, destination);
    ended
}
