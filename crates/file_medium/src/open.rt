// A file opened as media.
ghost use Rattle.std.specs.Prelude.{◌≡◌, ◌*◌, ◌/◌, ◌^◌, ◌<◌, ◌≤◌, ℕ, IfErr, IfOk, true};
ghost use Rattle.std.specs.Fs.{new_options};
ghost use Rattle.file_medium.specs.FaultText.{IsFaultOf};
ghost use Rattle.file_medium.specs.Part.{parts};

use crate::{FileMedium, OpenFault};
use std::alloc::Global;
use std::fs::{OpenFile, OpenOptions};
use std::io::ErrorKind;
use std::rt::Files;

/// Opens the file at a path as the media of a host, in their order: `blocks` blocks of 512 bytes, `shelf` a medium, which
/// divides them. Where `make` is true, a file that doesn't exist is made first, with zero bytes.
///
/// # Errors
///
/// `WrongLength` where the file has another length than the blocks, `Failed` where a call of the file system was refused,
/// and `OutOfMemory`. No byte of a file that was there is changed then, and none that wasn't is left.
pub fn open_files<R: Files>(
    rt: &R,
    alloc: Global,
    path: &str,
    blocks: u32,
    shelf: u32,
    make: bool,
) -> Result<Vec<FileMedium<R::File>>, OpenFault>
    requires { (1 ≤ shelf) × ((n : ℕ) × (blocks ≡ n * shelf)) }
    ensures media { IfOk result (λ media. media.items ≡ parts shelf (blocks / shelf)) }
    ensures fault { IfErr result (IsFaultOf blocks) }
{
    let (file, is_made) = match open_or_make(rt, path, make) {
        Ok(opened) => opened,
        Err(fault) => return Err(fault),
    };
    match media_of(alloc, file, is_made, blocks, shelf) {
        Ok(media) => Ok(media),
        Err(fault) => {
            if is_made {
                let _ = rt.remove_file(path);
            }
            Err(fault)
        }
    }
}

/// The file at a path, open for reading and writing, and whether it was made.
fn open_or_make<R: Files>(rt: &R, path: &str, make: bool) -> Result<(R::File, bool), OpenFault>
    ensures { IfErr result (λ fault. fault ≡ OpenFault.Failed) }
{
    if make {
        match how(true).open(rt, path) {
            Ok(file) => return Ok((file, true)),
            Err(e) if e.kind() == ErrorKind::AlreadyExists => {}
            Err(_) => return Err(OpenFault::Failed),
        }
    }
    match how(false).open(rt, path) {
        Ok(file) => Ok((file, false)),
        Err(_) => Err(OpenFault::Failed),
    }
}

/// For reading and writing a file that is there, or, where it is to be made, one that isn't.
fn how(is_made: bool) -> OpenOptions
    ensures { result ≡ record new_options { read = true; write = true; create_new = is_made } }
{
    let mut how = OpenOptions::new();
    how.read(true).write(true).create_new(is_made);
    how
}

/// An open file as media, each with a handle of its own. A file that was made gets its length first.
fn media_of<F: OpenFile + Drop>(
    alloc: Global,
    file: F,
    is_made: bool,
    blocks: u32,
    shelf: u32,
) -> Result<Vec<FileMedium<F>>, OpenFault>
    requires { (1 ≤ shelf) × ((n : ℕ) × (blocks ≡ n * shelf)) }
    ensures media { IfOk result (λ media. media.items ≡ parts shelf (blocks / shelf)) }
    ensures fault { IfErr result (IsFaultOf blocks) }
{
    let length = u64::from(blocks) * 512;
    if is_made && file.set_len(length).is_err() {
        return Err(OpenFault::Failed);
    }
    match file.metadata() {
        Ok(data) if data.len() == length => parts_of(alloc, file, blocks / shelf, shelf),
        Ok(data) => Err(OpenFault::WrongLength { got: data.len() }),
        Err(_) => Err(OpenFault::Failed),
    }
}

/// That many parts of an open file, of that size. The last has the file's own handle.
fn parts_of<F: OpenFile + Drop>(
    alloc: Global,
    file: F,
    count: u32,
    size: u32,
) -> Result<Vec<FileMedium<F>>, OpenFault>
    requires { count * size < 2 ^ 32 }
    ensures media { IfOk result (λ media. media.items ≡ parts size count) }
    ensures fault { (blocks : ℕ) → IfErr result (IsFaultOf blocks) }
{
    let mut media = Vec::with_capacity(alloc, count as usize)?;
    let Some(last) = count.checked_sub(1) else {
        return Ok(media);
    };
    for i in 0..last {
        match file.try_clone() {
            Ok(handle) => media.push_reserved(FileMedium::over(handle, i * size, size)),
            Err(_) => return Err(OpenFault::Failed),
        }
    }
    media.push_reserved(FileMedium::over(file, last * size, size));
    Ok(media)
}
