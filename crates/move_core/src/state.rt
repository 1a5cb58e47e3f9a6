ghost use Rattle.std.specs.Prelude.{◌≡◌, ◌≤◌, [], IfOk, replicate, true};
ghost use Rattle.move_core.specs.State.{start_core};

use crate::CorePhase;
use crate::lane_spans::LaneSpans;
use mig_base::{OutOfMemory, Span};
use std::alloc::Global;
use std::marker::Model;

const LANES: usize = 8;

/// Two lists of blocks, and what is known of their differences.
#[derive(Drop)]
pub struct Core {
    pub(crate) source: Vec<[u8; 512]>,
    pub(crate) destination: Vec<[u8; 512]>,
    pub(crate) owed: Vec<bool>,
    pub(crate) log: Vec<Span>,
    pub(crate) cells: u32,
    pub(crate) unposted: Vec<LaneSpans>,
    pub(crate) mark: bool,
    pub(crate) phase: CorePhase,
}

impl Model for Core {
    ghost use Rattle.move_core.specs.State.{CoreState};
    ghost use Rattle.move_core.specs.Room.{HasRoom};

    ghost Value = { CoreState };

    ghost view = { λ c. record {
      source = c.source.items;
      destination = c.destination.items;
      owed = c.owed.items;
      log = c.log.items;
      cells = c.cells;
      unposted = c.unposted.items;
      mark = c.mark;
      phase = c.phase;
    } };

    ghost invariant = { λ c. HasRoom c.source.items c.destination.items c.owed.items c.cells c.log c.unposted.items };
}

impl Core {
    /// A core of 1 to 131,072 blocks, all zeroes on both sides, with a log of 2 to 65,536 spans. All blocks are owed.
    ///
    /// # Errors
    ///
    /// `OutOfMemory` where there is no memory for it.
    pub fn make(alloc: Global, blocks: u32, cells: u32) -> Result<Core, OutOfMemory>
        requires some_blocks { (1 ≤ blocks) × (blocks ≤ 131072) }
        requires some_cells { (2 ≤ cells) × (cells ≤ 65536) }
        ensures { IfOk result (λ c. c ≡ start_core blocks cells) }
    {
        Ok(Core {
            source: zero_blocks(alloc, blocks)?,
            destination: zero_blocks(alloc, blocks)?,
            owed: all_owed(alloc, blocks)?,
            log: Vec::with_capacity(alloc, cells as usize)?,
            cells,
            unposted: no_spans(alloc)?,
            mark: false,
            phase: CorePhase::Moving,
        })
    }
}

fn zero_blocks(alloc: Global, count: u32) -> Result<Vec<[u8; 512]>, OutOfMemory>
    ensures { IfOk result (λ v. v.items ≡ replicate count (replicate 512 0)) }
{
    let mut blocks = Vec::with_capacity(alloc, count as usize)?;
    for _ in 0..count {
        blocks.push_reserved([0; 512]);
    }
    Ok(blocks)
}

fn all_owed(alloc: Global, count: u32) -> Result<Vec<bool>, OutOfMemory>
    ensures { IfOk result (λ v. v.items ≡ replicate count true) }
{
    let mut owed = Vec::with_capacity(alloc, count as usize)?;
    for _ in 0..count {
        owed.push_reserved(true);
    }
    Ok(owed)
}

fn no_spans(alloc: Global) -> Result<Vec<LaneSpans>, OutOfMemory>
    ensures { IfOk result (λ v. v.items ≡ replicate 8 []) }
{
    let mut unposted = Vec::with_capacity(alloc, LANES)?;
    for _ in 0..LANES {
        unposted.push_reserved(LaneSpans::make(alloc)?);
    }
    Ok(unposted)
}
