//! Calls of the top call, and what they leave.

use engine::{FreeGate, Status, nvmigrate};
use guest_ram::{Host, Ram};
use mig_base::{BytesSink, BytesSource};
use mig_medium::{Medium, MemMedium, Step};
use std::alloc::{AllocError, Global};
use std::test::Fail;
use std::thread::Threads;

/// The rest of a head behind its lanes, with no migration.
pub(crate) const PACE: &str = "burst 4\nmix 0\nchange 4\nslice 4\nsmall 4\npages 4\npatience 8\n";

/// What a call is given beside its script: the words for the namespace and its shelves, the blocks of each shelf of
/// either host, and the numbers of the reads of the input, of the writes of the output, and of the calls of either host's
/// media that fail. These are counted in each shelf by itself.
#[derive(Clone, Copy)]
pub(crate) struct Given<'a> {
    pub sizes: [&'a str; 2],
    pub from: &'a [u32],
    pub to: &'a [u32],
    pub failing_reads: &'a [u64],
    pub failing_writes: &'a [u64],
    pub failing_from_gets: &'a [u64],
    pub failing_from_puts: &'a [u64],
    pub failing_to_puts: &'a [u64],
}

/// 16 blocks in one shelf, and nothing that fails.
pub(crate) const ONE_SHELF: Given<'static> = Given {
    sizes: ["16", "16"],
    from: &[16],
    to: &[16],
    failing_reads: &[],
    failing_writes: &[],
    failing_from_gets: &[],
    failing_from_puts: &[],
    failing_to_puts: &[],
};

/// 32 blocks in two shelves.
pub(crate) const TWO_SHELVES: Given<'static> = Given {
    sizes: ["32", "16"],
    from: &[16, 16],
    to: &[16, 16],
    ..ONE_SHELF
};

/// What a call left.
#[derive(Drop)]
pub(crate) struct Left {
    pub status: Status,
    pub output: BytesSink,
    pub from: Host<MemMedium>,
    pub to: Host<MemMedium>,
}

fn words(alloc: Global, list: &[&str]) -> Result<Vec<String>, AllocError> {
    let mut words = Vec::new(alloc);
    for word in list {
        words.push(word.to_string(alloc)?)?;
    }
    Ok(words)
}

pub(crate) fn joined(alloc: Global, parts: &[&str]) -> Result<Vec<u8>, AllocError> {
    let mut text = Vec::new(alloc);
    for part in parts {
        text.extend_from_slice(part.as_bytes())?;
    }
    Ok(text)
}

/// A host of media that tell traces of at most 64 steps, with the numbers of the gets and the puts that fail.
fn host(
    alloc: Global,
    shelves: &[u32],
    failing_gets: &[u64],
    failing_puts: &[u64],
) -> Result<Host<MemMedium>, Fail> {
    let mut media = Vec::new(alloc);
    for blocks in shelves {
        let gets = failing_gets.to_vec(alloc)?;
        let puts = failing_puts.to_vec(alloc)?;
        let made = MemMedium::make(alloc, *blocks, 64, gets, puts);
        media.push(made.map_err(|_| "no medium")?)?;
    }
    Ok(Host {
        shelves: media,
        ram: Ram::empty(),
    })
}

/// Calls the top call, to run a script.
pub(crate) fn called<R: Threads + Sync>(
    rt: &R,
    alloc: Global,
    script: Vec<u8>,
    given: Given<'_>,
) -> Result<Left, Fail> {
    let [blocks, shelf] = given.sizes;
    called_by(rt, alloc, &["run", "serial", blocks, shelf], script, given)
}

/// Calls the top call with these words.
pub(crate) fn called_by<R: Threads + Sync>(
    rt: &R,
    alloc: Global,
    list: &[&str],
    script: Vec<u8>,
    given: Given<'_>,
) -> Result<Left, Fail> {
    let words = words(alloc, list)?;
    let mut input = BytesSource::make(script, 4096, given.failing_reads.to_vec(alloc)?);
    let made = BytesSink::make(alloc, 4096, given.failing_writes.to_vec(alloc)?);
    let mut output = made.map_err(|_| "no sink")?;
    let gets = given.failing_from_gets;
    let mut from = host(alloc, given.from, gets, given.failing_from_puts)?;
    let mut to = host(alloc, given.to, &[], given.failing_to_puts)?;
    let gate = FreeGate;
    let status = nvmigrate(
        rt,
        alloc,
        &words,
        &mut input,
        &mut output,
        &mut from,
        &mut to,
        &gate,
    );
    Ok(Left {
        status,
        output,
        from,
        to,
    })
}

/// The steps of a shelf's medium.
pub(crate) fn steps_of(host: &Host<MemMedium>, shelf: usize) -> Option<&[Step]> {
    host.shelves.get(shelf)?.trace()
}

/// A block of a shelf.
pub(crate) fn block_of(host: &mut Host<MemMedium>, shelf: usize, b: u32) -> Option<[u8; 512]> {
    let medium = host.shelves.get_mut(shelf)?;
    let mut block = [0; 512];
    if b >= medium.len() {
        return None;
    }
    medium.get(b, &mut block).ok()?;
    Some(block)
}
