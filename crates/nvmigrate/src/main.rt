//! The program: it makes hosts of zeroed media and real streams, hands the words to the top call, writes the status that
//! comes back to standard error, and ends with its code. It answers `--help` and `--version` itself.
#![tactic(auto)]

ghost use Rattle.std.specs.Prelude.{IfErr, map, string_bytes};
ghost use Rattle.engine.specs.Words.{IsRunSerial};
ghost use Rattle.nvmigrate.specs.Ending.{EndsWith, HasFileRun, IsAnswered, IsEnded, IsNoWords};
ghost use Rattle.nvmigrate.specs.Hosts.{NameNoFiles};
ghost use Rattle.nvmigrate.specs.declared.ended.Ended.{Ended};
ghost use Rattle.session.specs.Sides.{sink};

mod ended;
mod host;
mod told;

use ended::Ended;
use engine::{FreeGate, Status, files, geometry, nvmigrate};
use file_medium::FileMedium;
use guest_ram::Host;
use host::{file_host, hosts};
use line_buf::write_last_line;
use mig_base::{Failed, OutOfMemory, ReadSource, Sink, Source, WriteSink};
use std::alloc::Global;
use std::fs::OpenFile;
use std::io::BufWriter;
use std::os::unix::fs::FileExt;
use std::process::ExitCode;
use std::rt::Files;
use std::thread::Threads;
use std::{env, io};
use told::told;

/// How much text goes out together, in bytes.
const ROOM: usize = 65536;

fn main(rt: HostRuntime) -> ExitCode {
    let mut input = ReadSource::over(rt.stdin());
    let mut errors = WriteSink::over(rt.stderr());
    let buffered = BufWriter::with_capacity(rt.alloc(), ROOM, rt.stdout());
    let code = match (words(&rt), buffered) {
        (Ok(words), Ok(writer)) => {
            let mut output = WriteSink::over(writer);
            program(
                &rt,
                rt.alloc(),
                &words,
                &mut input,
                &mut output,
                &mut errors,
            )
        }
        (Err(status), _) => end(&Ended::Answered(status), &mut errors),
        (_, Err(_)) => end(&Ended::Answered(Status::OutOfMemory), &mut errors),
    };
    ExitCode::from(code)
}

/// The words after the program's name. Words that aren't UTF-8 are no form.
fn words(rt: &HostRuntime) -> Result<Vec<String>, Status>
    ensures { IfErr result IsNoWords }
{
    match env::args(rt) {
        Ok(args) => args
            .skip(1)
            .collect(rt.alloc())
            .map_err(|_| Status::OutOfMemory),
        Err(e) if e.kind() == io::ErrorKind::OutOfMemory => Err(Status::OutOfMemory),
        Err(_) => Err(Status::Usage),
    }
}

/// Does what the words ask for, tells how that ended, and answers the exit status.
fn program<R: Threads + Sync + Files, S: Source, K: Sink, E: Sink>(
    rt: &R,
    alloc: Global,
    words: &[String],
    input: &mut S,
    output: &mut K,
    errors: &mut E,
) -> u8
where
    R::File: FileExt + Send,
    ensures { (ended : Ended) × IsEnded (map string_bytes words.now) (S.left input.old) (S.faults input.old) (S.faults input.new)
        (sink (K.bytes output.old) (K.faults output.old)) (sink (K.bytes output.new) (K.faults output.new)) ended
        × EndsWith ended (sink (E.bytes errors.old) (E.faults errors.old))
        (sink (E.bytes errors.new) (E.faults errors.new)) result }
{
    let ended = answer(rt, alloc, words, input, output);
    end(&ended, errors)
}

/// Writes the text of how the program ended, and answers the exit status, which says it where that fails.
fn end<E: Sink>(ended: &Ended, errors: &mut E) -> u8
    ensures { EndsWith ended.now (sink (E.bytes errors.old) (E.faults errors.old))
        (sink (E.bytes errors.new) (E.faults errors.new)) result }
{
    let _ = ended.write(errors);
    ended.code()
}

/// Tells what the program is where that is asked, and has every other list of words answered by the top call.
fn answer<R: Threads + Sync + Files, S: Source, K: Sink>(
    rt: &R,
    alloc: Global,
    words: &[String],
    input: &mut S,
    output: &mut K,
) -> Ended
where
    R::File: FileExt + Send,
    ensures { IsEnded (map string_bytes words.now) (S.left input.old) (S.faults input.old) (S.faults input.new)
        (sink (K.bytes output.old) (K.faults output.old)) (sink (K.bytes output.new) (K.faults output.new)) result }
{
    match told(words) {
        Some(text) => match write_last_line(text.as_bytes(), output) {
            Ok(()) => Ended::Answered(Status::Done),
            Err(Failed) => Ended::Answered(Status::WriteFault),
        },
        None => run(rt, alloc, words, input, output),
    }
}

/// Calls the top call, over files where the words name them.
fn run<R: Threads + Sync + Files, S: Source, K: Sink>(
    rt: &R,
    alloc: Global,
    words: &[String],
    input: &mut S,
    output: &mut K,
) -> Ended
where
    R::File: FileExt + Send,
    ensures { IsEnded (map string_bytes words.now) (S.left input.old) (S.faults input.old) (S.faults input.new)
        (sink (K.bytes output.old) (K.faults output.old)) (sink (K.bytes output.new) (K.faults output.new)) result }
{
    if let Some((from, to)) = files(words) {
        if let Some(sizes) = geometry(words) {
            return run_over_files(rt, alloc, words, input, output, sizes, from, to);
        }
        return Ended::Answered(Status::Usage);
    }
    Ended::Answered(run_in_memory(rt, alloc, words, input, output))
}

/// Opens the files, FROM first, calls the top call over them, and has both brought to their disks.
fn run_over_files<R: Threads + Sync + Files, S: Source, K: Sink>(
    rt: &R,
    alloc: Global,
    words: &[String],
    input: &mut S,
    output: &mut K,
    sizes: (u32, u32),
    from: &str,
    to: &str,
) -> Ended
where
    R::File: FileExt + Send,
    requires { IsRunSerial (map string_bytes words.now) sizes.0 sizes.1 }
    ensures { IsEnded (map string_bytes words.now) (S.left input.old) (S.faults input.old) (S.faults input.new)
        (sink (K.bytes output.old) (K.faults output.old)) (sink (K.bytes output.new) (K.faults output.new)) result }
{
    let mut source = match file_host(rt, alloc, from, sizes, false) {
        Ok(host) => host,
        Err(fault) => return Ended::NotOpened(fault),
    };
    let mut destination = match file_host(rt, alloc, to, sizes, true) {
        Ok(host) => host,
        Err(fault) => return Ended::NotOpened(fault),
    };
    let status = nvmigrate(
        rt,
        alloc,
        words,
        input,
        output,
        &mut source,
        &mut destination,
        &FreeGate,
    );
    let is_source_synced = is_synced(&mut source);
    if is_synced(&mut destination) && is_source_synced {
        Ended::Answered(status)
    } else {
        Ended::NotSynced(status)
    }
}

/// Has what was written of a host's file brought to its disk, and answers whether that went well.
fn is_synced<F: OpenFile>(host: &mut Host<FileMedium<F>>) -> bool {
    match host.shelves.first_mut() {
        Some(medium) => medium.sync().is_ok(),
        None => true,
    }
}

fn run_in_memory<R: Threads + Sync, S: Source, K: Sink>(
    rt: &R,
    alloc: Global,
    words: &[String],
    input: &mut S,
    output: &mut K,
) -> Status
    requires { NameNoFiles (map string_bytes words.now) }
    ensures { IsAnswered (map string_bytes words.now) (S.left input.old) (S.faults input.old) (S.faults input.new)
        (sink (K.bytes output.old) (K.faults output.old)) (sink (K.bytes output.new) (K.faults output.new)) result }
{
    match hosts(alloc, words) {
        Ok((mut from, mut to)) => nvmigrate(
            rt, alloc, words, input, output, &mut from, &mut to, &FreeGate,
        ),
        Err(OutOfMemory) => Status::OutOfMemory,
    }
}
