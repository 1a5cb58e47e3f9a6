// What no clause says: what a call asks of its file, which bytes come and go, and how files of the system are opened.
ghost use Rattle.std.specs.Prelude.{◌≤◌, IfOk};

use crate::{FileMedium, OpenFault, open_files};
use mig_base::{BytesSink, Failed};
use mig_medium::Medium;
use std::cell::Cell;
use std::io::{Error, ErrorKind};
use std::os::unix::fs::FileExt;
use std::test::Fail;
use std::{fs, io, process};

/// A file of endless bytes, each known by its place, of which a call moves at most `piece`. The first calls are
/// interrupted, so many; those at `end` or behind it move nothing, or are refused.
#[derive(Drop)]
struct Shaky {
    piece: usize,
    interruptions: Cell<u32>,
    end: u64,
    is_refused: bool,
    calls: Cell<u32>,
    wrong: Cell<u32>,
}

impl Shaky {
    fn new(piece: usize, interruptions: u32, end: u64, is_refused: bool) -> Shaky {
        Shaky {
            piece,
            interruptions: Cell::new(interruptions),
            end,
            is_refused,
            calls: Cell::new(0),
            wrong: Cell::new(0),
        }
    }

    /// How many bytes the next call moves.
    fn next(&self, asked: usize, offset: u64) -> io::Result<usize>
        ensures { IfOk result (λ n. n ≤ asked) }
    {
        self.calls.set(self.calls.get().saturating_add(1));
        let interruptions = self.interruptions.get();
        if interruptions > 0 {
            self.interruptions.set(interruptions - 1);
            return Err(Error::from(ErrorKind::Interrupted));
        }
        if offset < self.end {
            return Ok(asked.min(self.piece));
        }
        if self.is_refused {
            Err(Error::from(ErrorKind::StorageFull))
        } else {
            Ok(0)
        }
    }
}

/// A handle of it.
#[derive(Drop)]
struct Handle<'a> {
    file: &'a Shaky,
}

impl<'a> FileExt for Handle<'a> {
    fn read_at(&self, buf: &mut [u8], offset: u64) -> io::Result<usize> {
        let count = self.file.next(buf.len(), offset)?;
        let mut at = offset;
        for byte in &mut buf[..count] {
            *byte = byte_at(at);
            at = at.wrapping_add(1);
        }
        Ok(count)
    }

    fn write_at(&self, buf: &[u8], offset: u64) -> io::Result<usize> {
        let count = self.file.next(buf.len(), offset)?;
        let mut at = offset;
        for byte in &buf[..count] {
            if *byte != byte_at(at) {
                self.file.wrong.set(self.file.wrong.get().saturating_add(1));
            }
            at = at.wrapping_add(1);
        }
        Ok(count)
    }
}

/// The byte at a place of the endless file.
fn byte_at(place: u64) -> u8 {
    (place % 251) as u8
}

/// Whether these are the bytes from a place on.
fn is_from(bytes: &[u8], place: u64) -> bool {
    let mut at = place;
    for byte in bytes {
        if *byte != byte_at(at) {
            return false;
        }
        at = at.wrapping_add(1);
    }
    true
}

/// The bytes from a place on.
fn bytes_from(place: u64) -> [u8; 512] {
    let mut bytes = [0; 512];
    let mut at = place;
    for byte in &mut bytes {
        *byte = byte_at(at);
        at = at.wrapping_add(1);
    }
    bytes
}

/// Gets block 2 of the part from block 5 on, or puts it: how that ended, whether the right bytes came or went, and how
/// many calls it took.
fn moved(file: &Shaky, is_get: bool) -> (Result<(), Failed>, bool, u32) {
    let mut medium = FileMedium::over(Handle { file }, 5, 3);
    let mut block = [0; 512];
    let ended = if is_get {
        medium.get(2, &mut block)
    } else {
        medium.put(2, &bytes_from(3584))
    };
    let is_right = !is_get || ended.is_err() || is_from(&block, 3584);
    (ended, is_right && file.wrong.get() == 0, file.calls.get())
}

#[test]
fn what_a_file_is_asked(rt: HostRuntime) {
    for is_get in [true, false] {
        for (piece, interruptions, end, is_refused, ended, calls) in [
            (512, 0, u64::MAX, false, Ok(()), 1),
            (100, 0, u64::MAX, false, Ok(()), 6),
            (100, 3, u64::MAX, false, Ok(()), 9),
            (512, 1024, u64::MAX, false, Ok(()), 1025),
            (512, 1025, u64::MAX, false, Err(Failed), 1025),
            (100, 0, 3700, false, Err(Failed), 3),
            (100, 0, 3700, true, Err(Failed), 3),
            (512, 0, 3584, false, Err(Failed), 1),
        ] {
            let file = Shaky::new(piece, interruptions, end, is_refused);
            assert_eq!(rt; moved(&file, is_get), (ended, true, calls));
        }
    }
}

/// Whether the bytes of a file are these, each so often.
fn has_runs(rt: &HostRuntime, path: &str, runs: &[(usize, u8)]) -> Result<bool, Fail> {
    let bytes = fs::read(rt, path)?;
    let mut rest = bytes.as_slice();
    for (count, byte) in runs {
        if rest.len() < *count || !rest[..*count].iter().all(|x| x == byte) {
            return Ok(false);
        }
        rest = &rest[*count..];
    }
    Ok(rest.is_empty())
}

/// Opens that many shelves of a size.
fn opened(
    rt: &HostRuntime,
    path: &str,
    shelves: u32,
    shelf: u32,
    make: bool,
) -> Result<Vec<FileMedium<fs::File>>, OpenFault>
    requires { (1 ≤ shelf) × (shelf ≤ 8) × (shelves ≤ 8) }
{
    open_files(rt, rt.alloc(), path, shelves * shelf, shelf, make)
}

/// Fills block `b` with that byte, through the bound that the product has.
fn fill<M: Medium + Send>(medium: &mut M, b: u32, byte: u8) -> Result<(), Failed> {
    if b < medium.len() {
        return medium.put(b, &[byte; 512]);
    }
    Ok(())
}

#[test]
fn a_file_in_three_parts(rt: HostRuntime) -> Result<(), Fail> {
    let path = format!(in rt.alloc(); "file_medium_{}", process::id(rt.process()))?;
    let path = path.as_str();
    assert!(rt; opened(&rt, path, 3, 2, false).err() == Some(OpenFault::Failed));
    let mut media = opened(&rt, path, 3, 2, true).map_err(|_| "not made")?;
    assert!(rt; media.len() == 3 && has_runs(&rt, path, &[(3072, 0)])?);
    assert!(rt; fill(&mut media[1], 1, 7) == Ok(()) && fill(&mut media[2], 0, 8) == Ok(()));
    assert!(rt; media[0].sync() == Ok(()));
    assert!(rt; has_runs(&rt, path, &[(1536, 0), (512, 7), (512, 8), (512, 0)])?);
    let again = opened(&rt, path, 1, 6, true).map_err(|_| "not opened")?;
    assert!(rt; again.len() == 1 && again[0].len() == 6);
    let long = opened(&rt, path, 1, 5, true).err();
    assert!(rt; long == Some(OpenFault::WrongLength { got: 3072 }));
    fs::remove_file(&rt, path)?;
    assert!(rt; opened(&rt, "no/such", 3, 2, true).err() == Some(OpenFault::Failed));
    Ok(())
}

#[test]
fn each_fault(rt: HostRuntime) -> Result<(), Fail> {
    for (fault, code, text) in [
        (OpenFault::Failed, 9, "host not opened\n"),
        (
            OpenFault::WrongLength { got: 16383 },
            9,
            "host length: got 16383\n",
        ),
        (OpenFault::OutOfMemory, 3, "out of memory\n"),
    ] {
        let made = BytesSink::make(rt.alloc(), 64, Vec::new(rt.alloc()));
        let mut sink = made.map_err(|_| "not made")?;
        assert!(rt; fault.write(&mut sink) == Ok(()));
        assert!(rt; sink.bytes() == text.as_bytes() && fault.code() == code);
    }
    Ok(())
}
