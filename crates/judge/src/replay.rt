// The namespace of a transcript.
ghost use Rattle.std.specs.Prelude.{◌≡◌, ◌≤◌, IfOk, IsTrue, None, replicate, vec_len};
ghost use Rattle.mig_base.specs.Count.{RisesBy};
ghost use Rattle.nvm_model.specs.Memory.{zero_block};
ghost use Rattle.judge.specs.Replay.{Replays, is_failing, state_of};

use mig_base::{Failed, OutOfMemory};
use mig_medium::Medium;
use std::alloc::{AllocError, Global};
use std::marker::Model;

/// A namespace in memory, whose calls of one block fail where a transcript says that such a call failed.
#[derive(Drop)]
pub(crate) struct Replay {
    blocks: Vec<[u8; 512]>,
    failing: Option<u32>,
    faults: u64,
}

impl Model for Replay {
    ghost use Rattle.std.specs.Prelude.{◌<◌, ◌^◌, vec_len};
    ghost use Rattle.judge.specs.Replay.{ReplayState};

    ghost Value = { ReplayState };

    ghost view = { λ r. record { blocks = r.blocks.items; failing = r.failing; faults = r.faults } };

    ghost invariant = { λ r. vec_len r.blocks < 2 ^ 32 };
}

impl Replay {
    /// So many zeroed blocks, of which no call fails.
    ///
    /// # Errors
    ///
    /// `OutOfMemory` where there is no memory for the blocks.
    pub(crate) fn make(alloc: Global, count: u32) -> Result<Replay, OutOfMemory>
        ensures { IfOk result (λ r. r ≡ record { blocks = replicate count zero_block; failing = None; faults = 0 }) }
    {
        let blocks = make_blocks(alloc, count)?;
        Ok(Replay {
            blocks,
            failing: None,
            faults: 0,
        })
    }

    /// From now on the calls of this block fail, if one is given, and no others.
    pub(crate) fn fail_at(&mut self, block: Option<u32>)
        ensures { self.new ≡ record self.old { failing = block } }
    {
        self.failing = block;
    }
}

impl Medium for Replay {
    ghost use Rattle.std.specs.Prelude.{Option, ℕ};

    ghost Inside = { Option ℕ };

    ghost state = { λ r. state_of r };

    ghost moves = { λ old step failed new. Replays old step failed new };

    fn len(&self) -> u32 {
        self.blocks.len() as u32
    }

    fn get(&mut self, b: u32, out: &mut [u8; 512]) -> Result<(), Failed> {
        if fails(self.failing, b, &mut self.faults) {
            return Err(Failed);
        }
        *out = self.blocks[b as usize];
        Ok(())
    }

    fn put(&mut self, b: u32, from: &[u8; 512]) -> Result<(), Failed> {
        if fails(self.failing, b, &mut self.faults) {
            return Err(Failed);
        }
        self.blocks[b as usize] = *from;
        Ok(())
    }

    fn mark(&mut self, _n: u64) {}
}

/// Whether the calls of a block fail. Counts the fault then.
fn fails(failing: Option<u32>, b: u32, faults: &mut u64) -> bool
    ensures exact { result ≡ is_failing failing b }
    ensures raised { IsTrue result → RisesBy 1 faults.old faults.new }
    ensures later { faults.old ≤ faults.new }
{
    let fails = match failing {
        None => false,
        Some(f) => f == b,
    };
    if fails {
        *faults = faults.saturating_add(1);
    }
    fails
}

#[tactic(auto, unfolding(nvm_model::specs::Memory::zero_block))]
fn zero_block() -> [u8; 512]
    ensures { result ≡ zero_block }
{
    [0; 512]
}

fn make_blocks(alloc: Global, count: u32) -> Result<Vec<[u8; 512]>, AllocError>
    ensures blocks { IfOk result (λ v. v.items ≡ replicate count zero_block) }
    ensures count { IfOk result (λ v. vec_len v ≡ count) }
{
    let mut blocks = Vec::with_capacity(alloc, count as usize)?;
    'more: for _ in 0..count {
        blocks.push_reserved(zero_block());
    }
    Ok(blocks)
}
