ghost use Rattle.std.specs.Prelude.{◌≡◌, ◌<◌, ◌≤◌, ◌↔◌, Some, [], Contains, IfOk, IsErr, IsFalse, IsTrue, OnOk, is_err, length, option_map, slice_index_or, vec_capacity, vec_len};
ghost use Rattle.mig_base.specs.Count.{RisesBy};
ghost use Rattle.mig_base.specs.Memory.{next_number};
ghost use Rattle.mig_medium.specs.Memory.{IsMemoryCall, no_moves, state_of, told, with_step, zero_blocks};
ghost use Rattle.nvm_model.specs.Medium.{got, sent};
ghost use Rattle.nvm_model.specs.declared.trace.Step.TheVariants.{Get, Put, Mark};

use crate::Medium;
use mig_base::{Failed, OutOfMemory};
use nvm_model::Step;
use std::alloc::{AllocError, Global};
use std::marker::Model;

/// A medium in memory, which fails at the calls that it was told.
#[derive(Drop)]
pub struct MemMedium {
    blocks: Vec<[u8; 512]>,
    steps: Vec<Step>,
    is_told: bool,
    room: usize,
    gets: Vec<u64>,
    puts: Vec<u64>,
    gets_made: u64,
    puts_made: u64,
    faults: u64,
}

impl Model for MemMedium {
    ghost use Rattle.std.specs.Prelude.{◌<◌, ◌≤◌, ◌^◌, vec_capacity, vec_len};
    ghost use Rattle.mig_medium.specs.Memory.{Memory, told};

    ghost Value = { Memory };

    ghost view = { λ m. record { blocks = m.blocks.items; trace = told m.is_told m.steps.items; room = m.room; gets = m.gets.items; puts = m.puts.items; gets_made = m.gets_made; puts_made = m.puts_made; faults = m.faults } };

    ghost invariant = { λ m. (vec_len m.blocks < 2 ^ 32) × (m.room ≤ vec_capacity m.steps) };
}

impl MemMedium {
    /// A medium of that many blocks, all zero. The gets and the puts whose numbers, each counted from 1, stand in
    /// `gets` and `puts` fail. It tells its trace while that has at most `room` steps. No call of it takes memory.
    ///
    /// # Errors
    ///
    /// `OutOfMemory` where there is no memory for the blocks and the trace.
    pub fn make(
        alloc: Global,
        blocks: u32,
        room: usize,
        gets: Vec<u64>,
        puts: Vec<u64>,
    ) -> Result<MemMedium, OutOfMemory>
        ensures blocks { IfOk result (λ m. m.blocks ≡ zero_blocks blocks) }
        ensures size { IfOk result (λ m. length m.blocks ≡ blocks) }
        ensures trace { IfOk result (λ m. m.trace ≡ Some []) }
        ensures room { IfOk result (λ m. m.room ≡ room) }
        ensures gets { IfOk result (λ m. m.gets ≡ gets.items) }
        ensures puts { IfOk result (λ m. m.puts ≡ puts.items) }
        ensures gets_made { IfOk result (λ m. m.gets_made ≡ 0) }
        ensures puts_made { IfOk result (λ m. m.puts_made ≡ 0) }
        ensures faults { IfOk result (λ m. m.faults ≡ 0) }
    {
        let blocks = make_blocks(alloc, blocks)?;
        let steps = Vec::with_capacity(alloc, room)?;
        Ok(MemMedium {
            blocks,
            steps,
            is_told: true,
            room,
            gets,
            puts,
            gets_made: 0,
            puts_made: 0,
            faults: 0,
        })
    }

    /// Block `b`.
    pub fn block(&self, b: u32) -> &[u8; 512]
        requires { b < length self.now.blocks }
        ensures { result.now ≡ slice_index_or self.now.blocks b [] }
    {
        &self.blocks[b as usize]
    }

    /// The steps that were made, or none where they are more than the room.
    pub fn trace(&self) -> Option<&[Step]>
        ensures { option_map (λ steps. steps.now) result ≡ self.now.trace }
    {
        if self.is_told {
            Some(&self.steps)
        } else {
            None
        }
    }
}

impl Medium for MemMedium {
    ghost Inside = { Unit {0} };

    ghost state = { λ m. state_of m };

    ghost moves = { λ old step failed new. no_moves old step failed new };

    fn len(&self) -> u32 {
        self.blocks.len() as u32
    }

    fn get(&mut self, b: u32, out: &mut [u8; 512]) -> Result<(), Failed>
        requires { b < length self.old.blocks }
        ensures call { IsMemoryCall self.old (got b out.new result) self.new }

        // It fails at the listed calls, and at no other.
        ensures failed { IsErr result ↔ Contains self.old.gets (next_number self.old.gets_made) }
        ensures calm { OnOk result (self.new.faults ≡ self.old.faults) }
        ensures rest { self.new ≡ record self.old {
          trace = with_step self.old.room (Get b) self.old.trace;
          gets_made = next_number self.old.gets_made;
          faults = self.new.faults;
        } }
    {
        add_step(&mut self.steps, &mut self.is_told, self.room, Step::Get(b));
        if fails_next(&self.gets, &mut self.gets_made, &mut self.faults) {
            return Err(Failed);
        }
        *out = self.blocks[b as usize];
        Ok(())
    }

    fn put(&mut self, b: u32, from: &[u8; 512]) -> Result<(), Failed>
        requires { b < length self.old.blocks }
        ensures call { IsMemoryCall self.old (sent b from.now (is_err result)) self.new }

        // It fails at the listed calls, and at no other.
        ensures failed { IsErr result ↔ Contains self.old.puts (next_number self.old.puts_made) }
        ensures calm { OnOk result (self.new.faults ≡ self.old.faults) }
        ensures rest { self.new ≡ record self.old {
          blocks = self.new.blocks;
          trace = with_step self.old.room (Put b) self.old.trace;
          puts_made = next_number self.old.puts_made;
          faults = self.new.faults;
        } }
    {
        add_step(&mut self.steps, &mut self.is_told, self.room, Step::Put(b));
        if fails_next(&self.puts, &mut self.puts_made, &mut self.faults) {
            return Err(Failed);
        }
        self.blocks[b as usize] = *from;
        Ok(())
    }

    fn mark(&mut self, n: u64)
        ensures { self.new ≡ record self.old { trace = with_step self.old.room (Mark n) self.old.trace } }
    {
        add_step(&mut self.steps, &mut self.is_told, self.room, Step::Mark(n));
    }
}

/// That many blocks of zeroes.
fn make_blocks(alloc: Global, count: u32) -> Result<Vec<[u8; 512]>, AllocError>
    ensures blocks { IfOk result (λ v. v.items ≡ zero_blocks count) }
    ensures count { IfOk result (λ v. vec_len v ≡ count) }
{
    let mut blocks = Vec::with_capacity(alloc, count as usize)?;
    for _ in 0..count {
        blocks.push_reserved([0; 512]);
    }
    Ok(blocks)
}

/// Adds the step to the steps, which have room for that many. Past the room they aren't told any more.
fn add_step(steps: &mut Vec<Step>, is_told: &mut bool, room: usize, step: Step)
    requires { room ≤ vec_capacity steps.old }
    ensures told { told is_told.new steps.new.items ≡ with_step room step (told is_told.old steps.old.items) }
    ensures capacity { vec_capacity steps.old ≤ vec_capacity steps.new }
{
    if *is_told && steps.len() < room {
        steps.push_reserved(step);
    } else {
        *is_told = false;
    }
}

/// Counts a call, and answers whether its number is one of those that are to fail. Counts the fault then.
fn fails_next(fails: &[u64], made: &mut u64, faults: &mut u64) -> bool
    ensures failed { IsTrue result ↔ Contains fails.now (next_number made.old) }
    ensures number { made.new ≡ next_number made.old }
    ensures raised { IsTrue result → RisesBy 1 faults.old faults.new }
    ensures later { faults.old ≤ faults.new }
    ensures calm { IsFalse result → faults.new ≡ faults.old }
{
    *made = made.saturating_add(1);
    let fails = fails.contains(&*made);
    if fails {
        *faults = faults.saturating_add(1);
    }
    fails
}
