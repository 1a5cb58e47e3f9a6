// Whole reads and writes at a place of a file, each of one call where the system moves all that it is asked for.
ghost use Rattle.std.specs.Prelude.{◌+◌, ◌≤◌, ◌^◌, length};

use mig_base::Failed;
use std::io::ErrorKind;
use std::os::unix::fs::FileExt;

/// How many calls that a signal interrupted are made again, in a read or a write.
const AGAIN: u32 = 1024;

/// Reads into the whole buffer from that place on, in bytes.
///
/// # Errors
///
/// `Failed` where the file ends before, or a call was refused, or interrupted too often.
pub(crate) fn read_whole<F: FileExt>(file: &F, at: u64, out: &mut [u8]) -> Result<(), Failed>
    requires { at + length out.old ≤ 2 ^ 63 }
{
    let mut done = 0;
    let mut again = AGAIN;
    while done < out.len() {
        match file.read_at(&mut out[done..], at + done as u64) {
            Ok(0) => return Err(Failed),
            Ok(count) => done += count,
            Err(e) if again > 0 && e.kind() == ErrorKind::Interrupted => again -= 1,
            Err(_) => return Err(Failed),
        }
    }
    Ok(())
}

/// Writes the whole buffer from that place on, in bytes.
///
/// # Errors
///
/// `Failed` where nothing more was taken, or a call was refused, or interrupted too often.
pub(crate) fn write_whole<F: FileExt>(file: &F, at: u64, from: &[u8]) -> Result<(), Failed>
    requires { at + length from.now ≤ 2 ^ 63 }
{
    let mut done = 0;
    let mut again = AGAIN;
    while done < from.len() {
        match file.write_at(&from[done..], at + done as u64) {
            Ok(0) => return Err(Failed),
            Ok(count) => done += count,
            Err(e) if again > 0 && e.kind() == ErrorKind::Interrupted => again -= 1,
            Err(_) => return Err(Failed),
        }
    }
    Ok(())
}
