// The hosts that the program runs over.
ghost use Rattle.std.specs.Prelude.{◌≡◌, ℕ, ◌*◌, ◌≤◌, All, IfErr, IfOk, length, map, string_bytes};
ghost use Rattle.nvmigrate.specs.Hosts.{AreFresh, IsEmptyHost, IsFileHost, IsZeroed, IsZeroedHost};
ghost use Rattle.file_medium.specs.FaultText.{IsFaultOf};

use engine::geometry;
use file_medium::{FileMedium, OpenFault, open_files};
use guest_ram::{Host, Ram};
use mig_base::OutOfMemory;
use mig_medium::MemMedium;
use std::alloc::Global;
use std::rt::Files;

/// The two hosts: of zeroed blocks in memory, whose calls never fail, for words that run a script, and empty otherwise.
pub(crate) fn hosts(
    alloc: Global,
    words: &[String],
) -> Result<(Host<MemMedium>, Host<MemMedium>), OutOfMemory>
    ensures { IfOk result (λ h. AreFresh (map string_bytes words.now) h.0 h.1) }
{
    match geometry(words) {
        Some((blocks, shelf)) => {
            let from = memory_host(alloc, blocks, shelf)?;
            let to = memory_host(alloc, blocks, shelf)?;
            Ok((from, to))
        }
        None => Ok((empty_host(alloc), empty_host(alloc))),
    }
}

/// The host over the file at a path, which is made where that is asked for and it doesn't exist.
pub(crate) fn file_host<R: Files>(
    rt: &R,
    alloc: Global,
    path: &str,
    sizes: (u32, u32),
    make: bool,
) -> Result<Host<FileMedium<R::File>>, OpenFault>
    requires { (1 ≤ sizes.1) × ((n : ℕ) × (sizes.0 ≡ n * sizes.1)) }
    ensures host { IfOk result (IsFileHost sizes.0 sizes.1) }
    ensures fault { IfErr result (IsFaultOf sizes.0) }
{
    match open_files(rt, alloc, path, sizes.0, sizes.1, make) {
        Ok(shelves) => Ok(Host {
            shelves,
            ram: Ram::empty(),
        }),
        Err(fault) => Err(fault),
    }
}

fn empty_host(alloc: Global) -> Host<MemMedium>
    ensures { IsEmptyHost result }
{
    Host {
        shelves: Vec::new(alloc),
        ram: Ram::empty(),
    }
}

fn memory_host(alloc: Global, blocks: u32, shelf: u32) -> Result<Host<MemMedium>, OutOfMemory>
    requires { (1 ≤ shelf) × ((n : ℕ) × (n ≤ 64) × (blocks ≡ n * shelf)) }
    ensures { IfOk result (IsZeroedHost blocks shelf) }
{
    let shelves = memory_media(alloc, blocks / shelf, shelf)?;
    Ok(Host {
        shelves,
        ram: Ram::empty(),
    })
}

/// That many media of that many zeroed blocks.
fn memory_media(alloc: Global, count: u32, blocks: u32) -> Result<Vec<MemMedium>, OutOfMemory>
    ensures count { IfOk result (λ media. length media.items ≡ count) }
    ensures zeroed { IfOk result (λ media. All (IsZeroed blocks) media.items) }
{
    let mut media = Vec::with_capacity(alloc, count as usize)?;
    for _ in 0..count {
        let medium = zeroed_medium(alloc, blocks)?;
        media.push(medium).map_err(|_| OutOfMemory)?;
    }
    Ok(media)
}

fn zeroed_medium(alloc: Global, blocks: u32) -> Result<MemMedium, OutOfMemory>
    ensures { IfOk result (IsZeroed blocks) }
{
    MemMedium::make(alloc, blocks, 0, Vec::new(alloc), Vec::new(alloc))
}
